// What a ruling says.
ghost use Rattle.std.specs.Prelude.{◌≡◌};
ghost use Rattle.colregs.specs.Ruling as Spec;

use motion::side::Side;

#[derive(Clone, Copy)]
pub enum Encounter {
    Overtaking,
    BeingOvertaken,
    HeadOn,
    Crossing { target_on: Side },
}

#[derive(Clone, Copy)]
pub enum Responsibility {
    GiveWay,
    StandOn,
    Both,
    Undetermined,
}

#[derive(Clone, Copy)]
pub enum Rule {
    Rule12 = 12,
    Rule13 = 13,
    Rule14 = 14,
    Rule15 = 15,
    Rule17 = 17,
    Rule18 = 18,
    Rule19 = 19,
}

// Own craft's duty, and the rule that decides it.
#[derive(Clone, Copy)]
pub(crate) struct Decision {
    pub responsibility: Responsibility,
    pub rule: Rule,
}

#[derive(Clone, Copy)]
pub struct PermittedManoeuvre {
    pub starboard: bool,
    pub port: bool,
    pub slow_down: bool,
    pub hold: bool,
}

#[derive(Clone, Copy)]
pub struct Ruling {
    pub encounter: Encounter,
    pub responsibility: Responsibility,
    pub rule: Rule,
    pub manoeuvre: PermittedManoeuvre,
}

impl Rule {
    // The number that is printed.
    pub fn number(self) -> u8
        ensures { result ≡ Spec.rule_number self }
    {
        self as u8
    }
}
