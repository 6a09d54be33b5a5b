// A run of plots that is handed to an empty window, one after the other, and the words that are
// read off it (specs/Plots.antt).
ghost use Rattle.std.specs.Prelude.{◌≡◌};
ghost use Rattle.elementary.specs.Refusal as Refusals;
ghost use Rattle.exports.specs.Arguments as Argument;
ghost use Rattle.exports.specs.Plots as Spec;

use crate::answers::pattern;
use crate::arguments;
use elementary::error::Refusal;
use track::window::{Added, Fix, Window};

// The plots that the words are.
pub(crate) fn run(words: &[u64]) -> Added
    ensures { Spec.seen result ≡ Spec.run (Argument.plots words.now) }
{
    let mut run = Added {
        verdict: Ok(()),
        window: Window::empty(),
    };
    let plots = arguments::plot_words(words);
    for plot in plots {
        run = run.window.add(arguments::plot_of(*plot));
    }
    run
}

// The number of a verdict, 0 where there is none.
fn number(verdict: Result<(), Refusal>) -> u64
    ensures { result ≡ Refusals.answer_number verdict }
{
    match verdict {
        Ok(()) => 0,
        Err(why) => why.number() as u64,
    }
}

// North, east or the second of a fix, and 0 for none.
fn of_fix(fix: Option<Fix>, place: u32) -> u64
    ensures { result ≡ Spec.of_fix fix place }
{
    match fix {
        None => 0,
        Some(f) => {
            match place {
                0 => pattern(f.offset.north),
                1 => pattern(f.offset.east),
                _ => f.seconds as u64,
            }
        }
    }
}

// A word of the window after a run.
#[tactic(auto, unfolding(crate::specs::Plots::window_word))]
pub(crate) fn window_word(run: Added, part: u32) -> u64
    ensures { result ≡ Spec.window_word (Spec.seen run) part }
{
    match part {
        0 => number(run.verdict),
        1 => run.window.fixes().len() as u64,
        _ => {
            let place = part - 2;
            let fix = run.window.fixes().get((place / 3) as usize).copied();
            of_fix(fix, place % 3)
        }
    }
}
