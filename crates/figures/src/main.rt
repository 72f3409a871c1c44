// Makes calls on a table in memory as its input asks, a line each, and writes each line followed by its answer: so 01's figures and the
// recorded answers are data. src/kinds.rt has the lines that it takes. Comments (#) and empty lines are only written.
#![tactic(auto)]

mod answers;
mod calls;
mod kinds;

ghost use Rattle.std.specs.Prelude.{◌≤◌, length, IfOk};

use calls::Call;
use definition::Settings;
use kinds::Kind;
use lines::words;
use std::io;
use std::io::Read;

// Room for a table of three slots of the largest entry size and some bytes after them; and for as much input: what is longer is left out.
const ROOM: usize = 98304;

fn main(rt: HostRuntime) -> io::Result<()> {
    let mut input = [0; ROOM];
    let mut buffer = [0; ROOM];
    let text = read_full(&mut rt.reader(), &mut input)?;
    answer_all(&rt, text, &mut buffer)
}

// Reads until the room is full or the input ends: what it read. A `while`, since each read says where the next one goes on.
fn read_full<'a>(reader: &mut impl Read, room: &'a mut [u8]) -> io::Result<&'a [u8]>
    ensures { IfOk result (λ text. length text.now ≤ length room.old) }
{
    let mut done = 0;
    while done < room.len() {
        let n = reader.read(&mut room[done..])?;
        if n == 0 {
            break;
        }
        done += n;
    }
    Ok(&room[..done])
}

// The table that calls are on, as the last line `table` has it; before the first there is none, and every call is refused.
#[derive(Clone, Copy, Default)]
struct Opened {
    settings: Settings,
    len: usize,
}

// Each line in turn.
fn answer_all(rt: &impl Print, text: &[u8], buffer: &mut [u8]) -> io::Result<()> {
    let mut opened = Opened::default();
    for ended in text.split_inclusive(|b| *b == b'\n') {
        let line = ended.strip_suffix(b"\n").unwrap_or(ended);
        let kind = Kind::of(line);
        if kind == Some(Kind::Table) {
            opened = Opened {
                settings: calls::settings(line),
                len: words::number_at(line, 5) as usize,
            };
        }
        answer(rt, kind, line, opened, buffer)?;
    }
    Ok(())
}

// Writes a line and its answer; the table that its call is on is the front of the buffer.
fn answer(
    rt: &impl Print,
    kind: Option<Kind>,
    line: &[u8],
    opened: Opened,
    buffer: &mut [u8],
) -> io::Result<()> {
    rt.write_all(line)?;
    match (kind, buffer.get_mut(..opened.len)) {
        (Some(kind), Some(table)) => Call {
            rt,
            line,
            table,
            settings: opened.settings,
        }
        .make(kind)?,
        _ => answers::print_unknown(rt)?,
    }
    rt.write_all(b"\n")
}
