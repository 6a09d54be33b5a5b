// An encounter sheet's bytes as words, and the order of their kinds (document 01, 'Encounter sheet
// and its program').
ghost use Rattle.std.specs.Prelude.{◌≡◌, get_or, map, ◌≤◌};
ghost use Rattle.std.specs.Int.{w32, from_le_bytes};
ghost use Rattle.sheet_record.specs.Word as Spec;

// The largest sheet that is read, in bytes.
pub const MAX_BYTES: usize = 4096;

// How many values a word's low 28 bits have: a kind counts so much in a word.
pub(crate) const VALUES: u32 = 268435456;

// The kinds of words, by their numbers in the top four bits.
#[derive(Clone, Copy)]
pub(crate) enum Kind {
    OwnCourse = 0,
    OwnSpeed = 1,
    OwnCategory = 2,
    Visibility = 3,
    Desired = 4,
    Least = 5,
    Most = 6,
    CpaLimit = 7,
    TcpaLimit = 8,
    Id = 9,
    Bearing = 10,
    Range = 11,
    Course = 12,
    Speed = 13,
    Category = 14,
    Wind = 15,
}

impl Kind {
    // Its number.
    #[tactic(auto, unfolding(crate::specs::Word::number))]
    pub fn number(self) -> u32
        ensures number { result ≡ Spec.number self }
        ensures bits { result ≤ 15 }
    {
        self as u32
    }
}

// The words of a sheet, each as its four bytes; what is left over makes no word.
#[tactic(auto, using(crate::proofs::WordCode::chunked))]
pub(crate) fn words_of(bytes: &[u8]) -> &[[u8; 4]]
    ensures { map (from_le_bytes w32) result.now ≡ Spec.words bytes.now }
{
    let (words, _) = bytes.as_chunks::<4>();
    words
}

// Word i of a sheet, 0 where there is none. Apart from `replay::word`, of words of eight bytes,
// which says why.
pub(crate) fn word_at(bytes: &[u8], i: usize) -> u32
    ensures { result ≡ get_or (Spec.words bytes.now) i 0 }
{
    words_of(bytes).get(i).map_or(0, |w| u32::from_le_bytes(*w))
}

// The kind of a word, its top four bits. A kind that is read stays its number, as do those that
// follow: document 01 orders the words by it, and an enum would want a table of sixteen arms back
// from the number.
pub fn kind_of(word: u32) -> u32
    ensures { result ≡ Spec.kind word }
{
    word / VALUES
}

// The value of a word, its low 28 bits.
pub(crate) fn value_of(word: u32) -> u32
    ensures { result ≡ Spec.value word }
{
    word % VALUES
}

// The kind that follows one.
fn next_kind(kind: u32) -> u32
    ensures { result ≡ Spec.next_kind kind }
{
    if kind < 14 { kind + 1 } else { 9 }
}

// Whether a sheet tells the wind: its tenth word is of kind F.
#[tactic(auto, unfolding(crate::specs::Word::number))]
pub(crate) fn has_wind(bytes: &[u8]) -> bool
    ensures { result ≡ Spec.has_wind (Spec.words bytes.now) }
{
    kind_of(word_at(bytes, 9)) == Kind::Wind.number()
}

// How many words come before the contacts.
pub(crate) fn header_length(bytes: &[u8]) -> usize
    ensures { result ≡ Spec.header_length (Spec.words bytes.now) }
{
    if has_wind(bytes) { 10 } else { 9 }
}

// Whether the kinds of words are in order, `first` being due first.
fn in_order(first: u32, words: &[[u8; 4]]) -> bool
    ensures { result ≡ Spec.in_order first (map (from_le_bytes w32) words.now) }
{
    words.iter().try_fold(first, |kind, w| {
        (kind_of(u32::from_le_bytes(*w)) == kind).then_some(next_kind(kind))
    }) == Some(9)
}

// Whether the kinds of all words are in order: the header's, with the wind or without, and those of
// whole contacts.
fn is_ordered(bytes: &[u8]) -> bool
    ensures { result ≡ Spec.ordered (Spec.words bytes.now) }
{
    let words = words_of(bytes);
    words.len() >= 9 && in_order(0, &words[..9]) && in_order(9, &words[header_length(bytes)..])
}

// Whether a sheet's layout is right: whole words, not too many, their kinds in order.
#[tactic(auto, unfolding(crate::specs::Word::layout))]
pub(crate) fn in_layout(bytes: &[u8]) -> bool
    ensures { result ≡ Spec.layout bytes.now }
{
    bytes.len() <= MAX_BYTES && bytes.len() % 4 == 0 && is_ordered(bytes)
}
