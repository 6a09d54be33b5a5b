// A sheet's record as its bytes: the inverse of reading, for tests and tools. The round trip, both
// ways: sheet/proofs/Back.antt and Forth.antt.
#![tactic(auto, using(crate::proofs::EncodeCode::next_word, crate::proofs::EncodeCode::no_word, text::proofs::Appending::appended_twice), unfolding(crate::specs::Encode::header_words, crate::specs::Encode::row_words, crate::specs::Word::number))]

ghost use Rattle.std.specs.Prelude.{◌≡◌, take};
ghost use Rattle.text.specs.Text.{appended};
ghost use Rattle.motion.specs.Capacity.{max_contacts};
ghost use Rattle.sheet_record.specs.Word as Words;
ghost use Rattle.sheet_record.specs.Encode as Spec;

use crate::word::{Kind, VALUES};
use crate::{Header, Row};
use text::{Pieces, Text};

// A word of a kind and a value, as four bytes.
fn put_word(t: &mut Text, kind: Kind, value: u32)
    ensures { t.new ≡ appended t.old (Spec.word_bytes (Spec.word (Words.number kind) value)) }
{
    let w = kind.number() * VALUES + value % VALUES;
    t.put(&w.to_le_bytes());
}

fn put_header(t: &mut Text, h: Header)
    ensures { t.new ≡ appended t.old (Spec.bytes_of (Spec.header_words h)) }
{
    put_word(t, Kind::OwnCourse, h.course);
    put_word(t, Kind::OwnSpeed, h.speed);
    put_word(t, Kind::OwnCategory, h.category);
    put_word(t, Kind::Visibility, h.visibility);
    put_word(t, Kind::Desired, h.desired);
    put_word(t, Kind::Least, h.least);
    put_word(t, Kind::Most, h.most);
    put_word(t, Kind::CpaLimit, h.cpa_limit);
    put_word(t, Kind::TcpaLimit, h.tcpa_limit);
    if let Some(n) = h.wind {
        put_word(t, Kind::Wind, n);
    }
}

// Rows are put as their words.
struct RowWords;

impl Pieces<Row> for RowWords {
    ghost piece = { λ _ row. Spec.bytes_of (Spec.row_words row) };

    fn put(&self, t: &mut Text, row: Row) {
        put_word(t, Kind::Id, row.id);
        put_word(t, Kind::Bearing, row.bearing);
        put_word(t, Kind::Range, row.range);
        put_word(t, Kind::Course, row.course);
        put_word(t, Kind::Speed, row.speed);
        put_word(t, Kind::Category, row.category);
    }
}

// The bytes of a sheet that holds a header and rows, MAX_CONTACTS at most; of a value that is too
// large its low 28 bits.
pub fn encode(h: Header, rows: &[Row]) -> Text
    ensures { result ≡ Spec.encode h (take max_contacts rows.now) }
{
    let mut t = Text::blank();
    put_header(&mut t, h);
    t.each(motion::capacity::first(rows), &RowWords);
    t
}
