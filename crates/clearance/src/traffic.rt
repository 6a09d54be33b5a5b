// The traffic around own craft: a list of contacts with the vessels that they are, of which a
// search takes MAX_CONTACTS at most.
ghost use Rattle.std.specs.Prelude.{◌≡◌, OnOk, map, take};
ghost use Rattle.motion.specs.Capacity.{max_contacts};
ghost use Rattle.motion.specs.Check as Check;
ghost use Rattle.clearance.specs.Clearing as Clearing;
ghost use Rattle.clearance.specs.Traffic as Spec;

use crate::contact::{Moving, Target};
use arrayvec::ArrayVec;
use elementary::error::Refusal;
use motion::capacity::MAX_CONTACTS;
use motion::vessel::Contact;
use situation::check;
use situation::party::Party;

// A contact, and the vessel that it is.
#[derive(Clone, Copy, Default)]
pub struct Entry {
    pub contact: Contact,
    pub target: Party,
}

// The target of an entry, as the search sees it.
impl From<Entry> for Target {
    ghost from_gives = { λ e result. result ≡ Spec.target_of e };

    #[tactic(auto, unfolding(crate::specs::Traffic::target_of))]
    fn from(e: Entry) -> Target {
        Target {
            contact: e.contact,
            vessel: e.target.motion,
        }
    }
}

// The offsets and velocities of the contacts, worked out: of the first MAX_CONTACTS, where there
// are more.
pub fn scene_of(t: &[Entry]) -> ArrayVec<Moving, MAX_CONTACTS>
    ensures { result.items ≡ map Clearing.moving (Spec.targets (take max_contacts t.now)) }
{
    let held = motion::capacity::first(t);
    let mut scene = ArrayVec::new();
    for e in held {
        scene.push(Moving::from(Target::from(*e)));
    }
    scene
}

// More than MAX_CONTACTS are refused (number 14).
pub fn check_count(count: usize) -> Result<(), Refusal>
    ensures { result ≡ Check.checked (Spec.count_checks count) }
{
    motion::argument::ensure(count <= MAX_CONTACTS, Refusal::TooManyContacts)
}

fn check_entry(e: Entry) -> Result<(), Refusal>
    ensures checked { result ≡ Check.checked (Spec.entry_checks e) }
    ensures held { Spec.HeldEntry e }
{
    motion::argument::check_contact(e.contact)?;
    check::check_party(e.target)
}

// Entry by entry, the contact, then its vessel.
pub fn check_contacts(t: &[Entry]) -> Result<(), Refusal>
    ensures held { OnOk result (Spec.HeldEntries t.now) }
    ensures checked { result ≡ Check.checked (Spec.contacts_checks t.now) }
{
    for e in t {
        check_entry(*e)?;
    }
    Ok(())
}
