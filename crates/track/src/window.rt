// The window of a contact's last plots: which plots are kept, and for how long.
ghost use Rattle.std.specs.Prelude.{◌≡◌, ◌≤◌, unsigned_abs};
ghost use Rattle.track.specs.Limits.{max_track_history, last_second};
ghost use Rattle.motion.specs.Check as Check;
ghost use Rattle.track.specs.Plot as Plots;

use elementary::error::Refusal;
use motion::argument::ensure;
use motion::vessel::Components;

// The most plots that a window holds (track.rs has 12).
pub const MAX_TRACK_HISTORY: usize = 8;

// The last second that a plot may have, 2^31 - 1.
pub const LAST_SECOND: i64 = 2147483647;

// A plot as it is handed in: the contact's offset in nautical miles, and the whole second.
#[derive(Clone, Copy)]
pub struct Plot {
    pub offset: Components,
    pub seconds: i64,
}

// A plot as it is kept.
#[derive(Clone, Copy, Default)]
pub struct Fix {
    pub offset: Components,
    pub seconds: u32,
}

// The latest plots, oldest first.
#[derive(Clone, Copy)]
pub struct Window {
    fixes: [Fix; MAX_TRACK_HISTORY],
    count: usize,
    ghost held: { count ≤ max_track_history },
}

// What a window says of a plot, and the window after it.
#[derive(Clone, Copy)]
pub struct Added {
    pub verdict: Result<(), Refusal>,
    pub window: Window,
}

// From 10,000 nautical miles one way to as many the other.
#[tactic(auto, unfolding(crate::specs::Plot::is_offset))]
fn is_offset(miles: f64) -> bool
    ensures { result ≡ Plots.is_offset miles }
{
    elementary::error::ensure_range(miles, -10000.0, 10000.0)
}

// Not below 0, not above the last second, and later than the newest.
#[tactic(auto, unfolding(crate::specs::Plot::is_time))]
fn is_time(newest: Option<Fix>, seconds: i64) -> bool
    ensures { result ≡ Plots.is_time newest seconds }
{
    0 <= seconds && seconds <= LAST_SECOND && newest.is_none_or(|f| i64::from(f.seconds) < seconds)
}

// North, then east (number 3), then the time (18).
#[tactic(auto, unfolding(motion::specs::Check::verdict))]
fn check_plot(newest: Option<Fix>, plot: Plot) -> Result<(), Refusal>
    ensures { result ≡ Check.checked (Plots.plot_checks newest plot) }
{
    ensure(is_offset(plot.offset.north), Refusal::Distance)?;
    ensure(is_offset(plot.offset.east), Refusal::Distance)?;
    ensure(is_time(newest, plot.seconds), Refusal::PlotTime)
}

// What is kept of a plot that is accepted.
fn fix_of(plot: Plot) -> Fix
    requires { unsigned_abs plot.seconds ≤ last_second }
    ensures { result ≡ Plots.fix_of plot }
{
    Fix {
        offset: plot.offset,
        seconds: plot.seconds.unsigned_abs() as u32,
    }
}

impl Window {
    ghost use Rattle.std.specs.Prelude.{[], ◌∷◌, ◌++◌};
    ghost use Rattle.track.specs.Window as Spec;

    // A window of no plot.
    pub fn empty() -> Window
        ensures { Spec.fixes result ≡ [] }
    {
        Window {
            fixes: [Fix::default(); MAX_TRACK_HISTORY],
            count: 0,
        }
    }

    // What it holds, oldest first.
    pub fn fixes(&self) -> &[Fix]
        ensures { result.now ≡ Spec.fixes self.now }
    {
        &self.fixes[..self.count]
    }

    // The newest plot.
    pub(crate) fn newest(&self) -> Option<Fix>
        ensures { result ≡ Spec.newest (Spec.fixes self.now) }
    {
        self.fixes().last().copied()
    }

    // One plot more, in the place of the oldest where there is no room.
    fn with(self, fix: Fix) -> Window
        ensures { Spec.fixes result ≡ Spec.latest max_track_history (Spec.fixes self ++ fix ∷ []) }
    {
        let mut window = self;
        if window.count < MAX_TRACK_HISTORY {
            window.fixes[window.count] = fix;
            window.count += 1;
            return window;
        }
        window.fixes.copy_within(1.., 0);
        window.fixes[MAX_TRACK_HISTORY - 1] = fix;
        window
    }

    // The window with a plot more, or as it is where the plot is refused, and the verdict on it.
    pub fn add(self, plot: Plot) -> Added
        ensures verdict { result.verdict ≡ Spec.verdict_on (Spec.fixes self) plot }
        ensures window { Spec.fixes result.window ≡ Spec.added (Spec.fixes self) plot }
        ensures property { Spec.Adds (Spec.fixes self) plot result.verdict (Spec.fixes result.window) }
    {
        let verdict = check_plot(self.newest(), plot);
        let window = match verdict {
            Ok(()) => self.with(fix_of(plot)),
            Err(_) => self,
        };
        Added { verdict, window }
    }
}
