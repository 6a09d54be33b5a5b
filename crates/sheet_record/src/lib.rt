// An encounter sheet as a record of whole numbers, as they stand in its words: the header and up to
// MAX_CONTACTS contacts.
#![tactic(auto)]

pub mod encode;
pub mod word;

ghost use Rattle.std.specs.Prelude.{◌≡◌, ◌<◌, List, length, map, get_or, ℕ};
ghost use Rattle.std.specs.Int.{w32, from_le_bytes};
ghost use Rattle.sheet_record.specs.Word as Words;
ghost use Rattle.sheet_record.specs.Record as Spec;

use arrayvec::ArrayVec;
use elementary::error::Refusal;
use motion::capacity::MAX_CONTACTS;

// Angles, speeds and distances count 1/1024, the TCPA limit seconds. Categories and the visibility
// are numbers: a record has what the words say, also what the checks refuse (number 16).
#[derive(Clone, Copy)]
pub struct Header {
    pub course: u32,
    pub speed: u32,
    pub category: u32,
    pub visibility: u32,
    pub desired: u32,
    pub least: u32,
    pub most: u32,
    pub cpa_limit: u32,
    pub tcpa_limit: u32,
    pub wind: Option<u32>,
}

#[derive(Clone, Copy, Default)]
pub struct Row {
    pub id: u32,
    pub bearing: u32,
    pub range: u32,
    pub course: u32,
    pub speed: u32,
    pub category: u32,
}

// The value of word i.
fn value_at(bytes: &[u8], i: usize) -> u32
    ensures { result ≡ Spec.value_at (Words.words bytes.now) i }
{
    crate::word::value_of(crate::word::word_at(bytes, i))
}

// Where the wind comes from, if the sheet tells it.
fn wind_of(bytes: &[u8]) -> Option<u32>
    ensures { result ≡ Spec.wind_of (Words.words bytes.now) }
{
    crate::word::has_wind(bytes).then(|| value_at(bytes, 9))
}

// The header of a sheet; what is not there is 0, and an unknown wind.
#[tactic(auto, unfolding(crate::specs::Record::header_of))]
pub fn header_of(bytes: &[u8]) -> Header
    ensures { result ≡ Spec.header_of (Words.words bytes.now) }
{
    Header {
        course: value_at(bytes, 0),
        speed: value_at(bytes, 1),
        category: value_at(bytes, 2),
        visibility: value_at(bytes, 3),
        desired: value_at(bytes, 4),
        least: value_at(bytes, 5),
        most: value_at(bytes, 6),
        cpa_limit: value_at(bytes, 7),
        tcpa_limit: value_at(bytes, 8),
        wind: wind_of(bytes),
    }
}

// The whole contacts that follow the header, each as its six words.
#[tactic(auto, using(crate::proofs::RecordCode::counted, crate::proofs::RecordCode::six_words))]
fn contacts(bytes: &[u8]) -> &[[[u8; 4]; 6]]
    ensures count { length result.now ≡ Spec.contact_count (Words.words bytes.now) }
    ensures words { (i : ℕ) → (other : List (List ℕ)) → i < length result.now
        → map (from_le_bytes w32) (get_or result.now i other) ≡ Spec.contact_at (Words.words bytes.now) i }
{
    let words = crate::word::words_of(bytes);
    let header = crate::word::header_length(bytes).min(words.len());
    let (contacts, _) = words[header..].as_chunks::<6>();
    contacts
}

// How many whole contacts follow the header.
fn contact_count(bytes: &[u8]) -> usize
    ensures { result ≡ Spec.contact_count (Words.words bytes.now) }
{
    contacts(bytes).len()
}

// The value of a word that stands as its four bytes.
fn value_in(word: &[u8; 4]) -> u32
    ensures { result ≡ Words.value (from_le_bytes w32 word.now) }
{
    crate::word::value_of(u32::from_le_bytes(*word))
}

// The contact of six words.
#[tactic(auto, unfolding(crate::specs::Record::row_from))]
fn row_of(words: &[[u8; 4]; 6]) -> Row
    ensures { result ≡ Spec.row_from (map (from_le_bytes w32) words.now) 0 }
{
    let [id, bearing, range, course, speed, category] = words;
    Row {
        id: value_in(id),
        bearing: value_in(bearing),
        range: value_in(range),
        course: value_in(course),
        speed: value_in(speed),
        category: value_in(category),
    }
}

// The contacts of a sheet, as many as there is room for.
pub fn rows_of(bytes: &[u8]) -> ArrayVec<Row, MAX_CONTACTS>
    ensures { result.items ≡ Spec.rows_of (Words.words bytes.now) }
{
    let mut rows = ArrayVec::new();
    for contact in motion::capacity::first(contacts(bytes)) {
        rows.push(row_of(contact));
    }
    rows
}

// The layout, then the count of contacts.
#[tactic(auto, unfolding(crate::specs::Record::readable, motion::specs::Check::verdict))]
pub fn check_layout(bytes: &[u8]) -> Result<(), Refusal>
    ensures { result ≡ Spec.readable bytes.now }
{
    motion::argument::ensure(crate::word::in_layout(bytes), Refusal::Layout)?;
    motion::argument::ensure(
        contact_count(bytes) <= MAX_CONTACTS,
        Refusal::TooManyContacts,
    )
}
