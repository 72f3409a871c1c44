// What crosses to C and back, by value: the settings, and what each call answers. C's names are these in lower case, with `_`:
// pyltarka_settings and so on, in include/pyltarka.h, member for member. C has no Result and no Option: each answer is a struct of its own,
// with 0 or the refusal as a number in it, and a conversion to it.
ghost use Rattle.std.specs.Prelude.{◌≡◌};
ghost use Rattle.definition.specs.Answers.{inserted_of, written_of, changed_of, found_of, free_count_of};
ghost use Rattle.definition.specs.Calls.{checked_key};
ghost use Rattle.slots.specs.Keys.{lent_key};
ghost use Rattle.station.specs.Forms.{settings_of, number_in, inserted_in, changed_in, record_in, counted_in};

use definition::{Record, Refusal, Settings};

// A table's settings: the entry size E in bytes, multipart or fixed, counted or not, keyed or not.
#[repr(C)]
#[derive(Clone, Copy, Debug, Default, PartialEq, Eq)]
pub struct PyltarkaSettings {
    pub entry_size: u64,
    pub multipart: bool,
    pub counted: bool,
    pub keyed: bool,
}

// What insert answers: the head's slot, and 0 or the refusal.
#[repr(C)]
#[derive(Clone, Copy, Debug, Default, PartialEq, Eq)]
pub struct PyltarkaInserted {
    pub slot: u64,
    pub number: u32,
}

// What a change of the count answers: 0 or the refusal, the stored count, whether nothing was left.
#[repr(C)]
#[derive(Clone, Copy, Debug, Default, PartialEq, Eq)]
pub struct PyltarkaChanged {
    pub number: u32,
    pub count: u32,
    pub last_reference: bool,
}

// What the copying read answers: the content's length, the slots visited, 0 or the refusal, the count, the compressed mark.
#[repr(C)]
#[derive(Clone, Copy, Debug, Default, PartialEq, Eq)]
pub struct PyltarkaRecord {
    pub length: u64,
    pub visits: u64,
    pub number: u32,
    pub count: u32,
    pub mark: bool,
}

// What the fixed read answers: where the content starts in the table, and what the copying read answers.
#[repr(C)]
#[derive(Clone, Copy, Debug, Default, PartialEq, Eq)]
pub struct PyltarkaPart {
    pub offset: u64,
    pub length: u64,
    pub visits: u64,
    pub number: u32,
    pub count: u32,
    pub mark: bool,
}

// What the free count answers: the members of the free list, and 0 or the refusal.
#[repr(C)]
#[derive(Clone, Copy, Debug, Default, PartialEq, Eq)]
pub struct PyltarkaCounted {
    pub count: u64,
    pub number: u32,
}

// Places are 64 bits wide here, so that no entry size is cut.
impl From<PyltarkaSettings> for Settings {
    ghost from_gives = { λ s own. own ≡ settings_of s };

    fn from(s: PyltarkaSettings) -> Settings {
        Settings {
            size: s.entry_size as usize,
            multipart: s.multipart,
            counted: s.counted,
            keyed: s.keyed,
        }
    }
}

// What insert answers, for C.
impl From<Result<u64, Refusal>> for PyltarkaInserted {
    ghost from_gives = { λ answer told. told ≡ inserted_in (inserted_of answer) };

    fn from(answer: Result<u64, Refusal>) -> PyltarkaInserted {
        match answer {
            Ok(slot) => PyltarkaInserted { slot, number: 0 },
            Err(refusal) => PyltarkaInserted {
                slot: 0,
                number: refusal.number(),
            },
        }
    }
}

// What a change of the count answers, for C.
impl From<Result<Option<u32>, Refusal>> for PyltarkaChanged {
    ghost from_gives = { λ answer told. told ≡ changed_in (changed_of answer) };

    fn from(answer: Result<Option<u32>, Refusal>) -> PyltarkaChanged {
        match answer {
            Ok(left) => PyltarkaChanged {
                number: 0,
                count: left.unwrap_or(0),
                last_reference: left.is_none(),
            },
            Err(refusal) => PyltarkaChanged {
                number: refusal.number(),
                ..PyltarkaChanged::default()
            },
        }
    }
}

// What the copying read answers, for C.
impl From<Result<Record, Refusal>> for PyltarkaRecord {
    ghost from_gives = { λ answer told. told ≡ record_in (found_of answer) };

    fn from(answer: Result<Record, Refusal>) -> PyltarkaRecord {
        match answer {
            Ok(record) => PyltarkaRecord {
                length: record.len,
                visits: record.visits,
                number: 0,
                count: record.count,
                mark: record.mark,
            },
            Err(refusal) => PyltarkaRecord {
                number: refusal.number(),
                ..PyltarkaRecord::default()
            },
        }
    }
}

// What the free count answers, for C.
impl From<Result<u64, Refusal>> for PyltarkaCounted {
    ghost from_gives = { λ answer told. told ≡ counted_in (free_count_of answer) };

    fn from(answer: Result<u64, Refusal>) -> PyltarkaCounted {
        match answer {
            Ok(count) => PyltarkaCounted { count, number: 0 },
            Err(refusal) => PyltarkaCounted {
                count: 0,
                number: refusal.number(),
            },
        }
    }
}

// What replace and remove answer, for C: the number alone. No From: neither Result nor u32 is ours.
pub fn number_in(answer: Result<(), Refusal>) -> u32
    ensures { result ≡ number_in (written_of answer) }
{
    match answer {
        Ok(()) => 0,
        Err(refusal) => refusal.number(),
    }
}

// The key that C asks to check, if it does.
pub fn key_if<'a>(checked: bool, key: &'a [u8]) -> Option<&'a [u8]>
    ensures { lent_key result ≡ checked_key checked key.now }
{
    checked.then_some(key)
}
