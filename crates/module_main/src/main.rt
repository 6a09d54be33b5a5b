// Replays the Rust's answers on the module's functions. Each record of standard input is 37
// little-endian words: the function's number, which word of its answer, how many words its
// arguments have, and these as the C exports take them, two contacts at most. For each the program
// writes that word, as sixteen hexadecimal digits on a line; the file `stdout` has what the Rust
// answers. How the records are made is said in docs/COMPARISON.md.
#![tactic(auto)]

use replay::{Replayed, low_half, word};
use std::io;

// Nothing is promised of what is answered but that it is answered: the Rust's own answers say what
// it is.
struct Module;

impl Replayed for Module {
    ghost Answers = { λ _ _ _. Unit {0} };

    fn answer(&self, record: &[u8]) -> u64 {
        let mut words = [0; 34];
        for i in 0..34 {
            words[i] = word(record, i + 3);
        }
        let words = &words[..(word(record, 2) as usize).min(34)];
        let part = low_half(word(record, 1));
        match word(record, 0) {
            0 => exports::port_closest_point_of_approach(part, words),
            1 => exports::port_approach_distance(part, words),
            2 => exports::port_target_from_plot(part, words),
            3 => exports::port_bow_crossing_range(part, words),
            4 => exports::port_course_for_cpa(part, words),
            5 => exports::port_relative_bearing_of(part, words),
            6 => exports::port_rule_of_the_road(part, words),
            7 => exports::port_precedence(part, words),
            8 => exports::port_assess(part, words),
            9 => exports::port_avoid(part, words),
            10 => exports::port_search(part, words),
            11 => exports::port_ruled_search(part, words),
            12 => exports::port_collision_picture(part, words),
            13 => exports::port_slowing_search(part, words),
            14 => exports::port_trial_count(part, words),
            15 => exports::port_trial(part, words),
            16 => exports::port_window(part, words),
            _ => exports::port_fit(part, words),
        }
    }
}

fn main(rt: HostRuntime) -> io::Result<()> {
    let mut room = [0u8; 296];
    replay::replay(&mut rt.stdin(), &mut rt.stdout(), &mut room, &Module)
}
