// The lines that the program takes, each found by its form.
use lines::forms;

#[derive(Clone, Copy, Debug, PartialEq, Eq)]
pub enum Kind {
    Insert,
    Replace,
    Remove,
    Change,
    Table,
    Set,
    Read,
    ReadFixed,
    FreeCount,
    Bytes,
    Value,
    // A comment or an empty line.
    Comment,
}

// `table` starts a new table of so many zero bytes, `set` sets one byte as no call would leave it, `bytes` shows so many from a place on,
// `value` those that a key or content stands for. crates/lines/src/forms.rt says what the capital letters are.
const FORMS: [(&[u8], Kind); 12] = [
    (b"insert key V content V C", Kind::Insert),
    (b"replace N key V content V C", Kind::Replace),
    (b"remove N", Kind::Remove),
    (b"change N S", Kind::Change),
    (
        b"table N fixed|multipart uncounted|counted unkeyed|keyed L",
        Kind::Table,
    ),
    (b"set N N", Kind::Set),
    (b"read N unchecked|checked key V output N", Kind::Read),
    (b"read_fixed N unchecked|checked key V", Kind::ReadFixed),
    (b"free_count", Kind::FreeCount),
    (b"bytes N N", Kind::Bytes),
    (b"value V", Kind::Value),
    (b"", Kind::Comment),
];

impl Kind {
    // None for a line that the program does not take.
    pub fn of(line: &[u8]) -> Option<Kind> {
        if line.starts_with(b"#") {
            return Some(Kind::Comment);
        }
        forms::which_form(line, &FORMS)
    }
}
