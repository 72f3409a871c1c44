// How the program writes: bytes, and each kind of answer.
use definition::{Record, Refusal};
use lines::values;
use std::{fmt, io};

// As many bytes as are written one by one; of more the sum is.
const FEW: usize = 64;

// To a line that is none of those that the program takes, or whose numbers are too large.
pub fn print_unknown(rt: &impl Print) -> io::Result<()> {
    print!(rt; ": ?")
}

// ---- bytes

// Two digits each.
#[derive(Clone, Copy, Debug)]
pub struct Digits<'a>(pub &'a [u8]);

impl fmt::Display for Digits<'_> {
    fn fmt<W: fmt::Write>(&self, f: &mut fmt::Formatter<W>) -> fmt::Result {
        for byte in self.0 {
            write!(f, " {byte:02x}")?;
        }
        Ok(())
    }
}

// All of some bytes: themselves, or their sum.
pub fn print_bytes(rt: &impl Print, name: &str, b: &[u8]) -> io::Result<()> {
    if b.len() <= FEW {
        return print!(rt; "{name}{}", Digits(b));
    }
    print!(rt; "{name} sum {}", values::sum(b))
}

// ---- answers

// What a call answers that is not refused.
#[derive(Clone, Copy)]
pub enum Answer {
    Slot(u64),
    Accepted,
    // None: the last reference.
    Count(Option<u32>),
    Free(u64),
    Content(Record),
}

impl fmt::Display for Answer {
    fn fmt<W: fmt::Write>(&self, f: &mut fmt::Formatter<W>) -> fmt::Result {
        match self {
            Answer::Slot(slot) => write!(f, "slot {slot}"),
            Answer::Accepted => f.write_str("accepted"),
            Answer::Count(Some(count)) => write!(f, "count {count}"),
            Answer::Count(None) => f.write_str("LAST REFERENCE"),
            Answer::Free(members) => write!(f, "free {members}"),
            Answer::Content(record) => {
                let mark = if record.mark { ", compressed" } else { "" };
                let Record {
                    len,
                    count,
                    visits,
                    ..
                } = *record;
                write!(f, "length {len}{mark}, count {count}, visits {visits}")
            }
        }
    }
}

pub fn print(rt: &impl Print, answer: Result<Answer, Refusal>) -> io::Result<()> {
    match answer {
        Ok(answer) => print!(rt; ": {answer}"),
        Err(refusal) => print!(rt; ": refused {}", refusal.number()),
    }
}
