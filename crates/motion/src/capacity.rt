// The capacity of every list of contacts.
ghost use Rattle.std.specs.Prelude.{◌≡◌, ◌≤◌, length, min, take};
ghost use Rattle.motion.specs.Capacity.{max_contacts};

// The most contacts of a list.
pub const MAX_CONTACTS: usize = 32;

// A count, at most the room.
pub fn held(count: usize) -> usize
    ensures { result ≡ min count max_contacts }
{
    count.min(MAX_CONTACTS)
}

// The first MAX_CONTACTS of a list, all of it where it is shorter. Who makes a list within the room
// (`rows_of`, `scene_of`, both `traffic_of`, `CollisionPicture::at_least`, `picture_of` of the
// exports) has a loop of its own, and proofs/Made serves them: a function that takes each one's
// line as a closure would have a `requires`, that it may be called, which by the project's rule no
// public function has; a trait of one function, with the ghost function that it computes, needs
// none, but an `impl` of it is longer than the loop that it stands for (and `From`, which some
// have, only relates what it gives); `collect` answers a `Result`, whose error each would have to
// show that it can't occur.
pub fn first<T>(list: &[T]) -> &[T]
    ensures value { result.now ≡ take max_contacts list.now }
    ensures fits { length result.now ≤ max_contacts }
{
    &list[..held(list.len())]
}
