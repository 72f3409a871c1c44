// The walk of a chain: the slot's test, the head's tests, the later parts in chain order, the total last.
// All of it inlined: reader's `Slot::parse_head` says why.
ghost use Rattle.std.specs.Prelude.{◌≡◌, Bool, true, ◌-◌, ◌≤◌, ◌<◌};
ghost use Rattle.std.proofs.Math.Option.{none};
ghost use Rattle.definition.specs.Settings.{head_overhead};
ghost use Rattle.definition.specs.Slots.{head_link};
ghost use Rattle.definition.specs.Chains.{part, head_fault, start_part, parts_from, walk};
ghost use Rattle.definition.specs.Calls.{checked_key_test};
ghost use Rattle.slots.specs.Keys.{lent_key};
ghost use Rattle.reader.specs.Opened.{slots_of};
ghost use Rattle.walks.specs.Met.{RestIs, ChainIs, ChainTested};

use crate::Extent;
use definition::{Part, PartKind, Refusal};
use reader::{Table, read_total};

// The later parts from slot `start` on: each link, then each part, at most FILLED - 2 of them.
#[inline(always)]
fn walk_rest(table: &Table, start: u64) -> Result<Extent, Refusal>
    requires { 2 ≤ table.now.header.filled }
    ensures { (mark : Bool) → RestIs result (slots_of table.now) (parts_from table.now.layout.settings (slots_of table.now) table.now.header.filled mark true (table.now.header.filled - 2) start) }
{
    let mut at = start;
    let mut bytes: usize = 0;
    for before in 0..table.header.filled - 2 {
        if at == 0 || at >= table.header.filled {
            return Err(Refusal::Chain);
        }
        let part = table.slot(at).parse_later()?;
        match part.kind {
            PartKind::Continuation(next) => {
                at = next;
                bytes += part.bytes;
            }
            PartKind::Last(_) => {
                return Ok(Extent {
                    parts: before + 1,
                    bytes: bytes + part.bytes,
                });
            }
            PartKind::Head(_) => {
                return Err(Refusal::Chain);
            }
        }
    }
    Err(Refusal::Chain)
}

// The chain at the head in slot `at`, which holds n bytes and links to `next`: its later parts, then its total.
#[inline(always)]
fn walk_parts(table: &Table, at: u64, n: usize, next: u64) -> Result<Extent, Refusal>
    requires { (at < table.now.header.filled) × (2 ≤ table.now.header.filled) × (table.now.layout.settings.multipart ≡ true)
        × (next ≡ head_link table.now.layout.settings (slots_of table.now at))
        × (n ≡ table.now.layout.settings.size - head_overhead table.now.layout.settings) }
    ensures { ChainIs result table.now.layout.settings (slots_of table.now) (walk table.now.layout.settings (slots_of table.now) table.now.header.filled at) }
{
    let rest = walk_rest(table, next)?;
    let bytes = n + rest.bytes;
    if (bytes - table.layout.settings.prefix_len()) as u64 != read_total(table.slot(at).bytes) {
        return Err(Refusal::Chain);
    }
    Ok(Extent {
        parts: rest.parts + 1,
        bytes,
    })
}

// The chain that starts in slot `at`, parsed as this part: a plain slot is all of it.
#[inline(always)]
fn walk_chain(table: &Table, at: u64, start: Part) -> Result<Extent, Refusal>
    requires { (0 < at) × (at < table.now.header.filled)
        × (part start.kind start.bytes ≡ start_part table.now.layout.settings (slots_of table.now at))
        × (head_fault table.now.layout.settings none 8 (slots_of table.now at) ≡ 0) }
    ensures { ChainIs result table.now.layout.settings (slots_of table.now) (walk table.now.layout.settings (slots_of table.now) table.now.header.filled at) }
{
    match start.kind {
        PartKind::Head(next) => walk_parts(table, at, start.bytes, next),
        _ => Ok(Extent {
            parts: 1,
            bytes: start.bytes,
        }),
    }
}

// The tests of a call on the chain in slot `at`, in order: the slot (7), its head (8, 9), its parts (9, 10), its total (10).
#[inline(always)]
pub fn check_chain(table: &Table, at: u64, key: Option<&[u8]>) -> Result<Extent, Refusal>
    requires { checked_key_test table.now.layout.settings (lent_key key) ≡ 0 }
    ensures { ChainTested result table.now.layout.settings (slots_of table.now) at (lent_key key.entry) }
{
    let start = table.record_slot(at)?.parse_head(key, Refusal::Absent)?;
    walk_chain(table, at, start)
}
