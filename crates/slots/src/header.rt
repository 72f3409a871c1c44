// The header in slot 0: LAST_REMOVED and FILLED.
ghost use Rattle.std.specs.Prelude.{◌≡◌, ◌||◌, ◌+◌, ◌≤◌, leb, ltb, length};
ghost use Rattle.definition.specs.Numbers.{put};
ghost use Rattle.definition.specs.Settings.{link_bytes};
ghost use Rattle.definition.specs.Slots.{view, header_of};
ghost use Rattle.definition.specs.Effect.{header_store};

use crate::layout::Layout;
use definition::{Header, INDEX_SIZE};
use numbers::Number;

// LAST_REMOVED and FILLED of a table that has a slot 0. A stored FILLED of 0 reads as 1. A `Table` is made of it, so it takes bytes and layout.
#[tactic(auto, using(crate::proofs::HeaderLaws::header_is))]
pub fn read_header(table: &[u8], layout: Layout) -> Header
    requires { layout.settings.size ≤ length table.now }
    ensures { result ≡ header_of (view layout.settings.size table.now) }
{
    Header {
        removed: u64::read(table, 0),
        filled: u64::read(table, INDEX_SIZE).max(1),
    }
}

// Stores LAST_REMOVED and FILLED; the rest of slot 0 stays.
#[tactic(auto, using(crate::proofs::HeaderLaws::header_put))]
pub fn write_header(table: &mut [u8], h: Header)
    requires { link_bytes + link_bytes ≤ length table.old }
    ensures { table.new ≡ put table.old 0 (header_store h.removed h.filled).1 }
{
    h.removed.write(table, 0);
    h.filled.write(table, INDEX_SIZE);
}

// Refusal 3: LAST_REMOVED not below FILLED, or FILLED above the capacity.
pub fn header_bad(h: Header, capacity: u64) -> bool
    ensures { result ≡ (leb h.filled h.removed || ltb capacity h.filled) }
{
    h.filled <= h.removed || capacity < h.filled
}
