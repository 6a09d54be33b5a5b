// The sides of a vessel.
ghost use Rattle.std.specs.Prelude.{◌≡◌};
ghost use Rattle.motion.specs.Sides as Spec;

// Where something lies, or which way a vessel turns.
#[derive(Clone, Copy)]
pub enum Side {
    Starboard,
    Port,
}

// Something of each side.
#[derive(Clone, Copy, Default)]
pub struct BySide<T> {
    pub starboard: T,
    pub port: T,
}

impl<T: Copy> BySide<T> {
    // What there is of one side.
    pub fn on(self, side: Side) -> T
        ensures { result ≡ Spec.on self side }
    {
        match side {
            Side::Starboard => self.starboard,
            Side::Port => self.port,
        }
    }
}
