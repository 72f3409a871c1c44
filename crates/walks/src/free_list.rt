// The walk of the free list, as the Rust's check_free_refs; here it also tests each member's mark, and it always ends.
ghost use Rattle.std.specs.Prelude.{◌-◌, ◌*◌, ◌≤◌, ◌<◌, length};
ghost use Rattle.definition.specs.Slots.{view};
ghost use Rattle.definition.specs.FreeList.{free_from};
ghost use Rattle.walks.specs.Met.{FreeIs};

use definition::{Header, Refusal};
use reader::{Slot, is_free, read_next};
use slots::layout::Layout;

// The members of the free list, or refusal 11: a member not below FILLED or not marked free, or no end after FILLED - 1 members.
// It is promised of any header, and a `Table` has its own: so the three stay parameters.
#[tactic(auto, using(crate::proofs::FreeLaws::free_walk))]
pub fn check_free_refs(table: &[u8], layout: Layout, h: Header) -> Result<u64, Refusal>
    requires { (h.filled * layout.settings.size ≤ length table.now) × (0 < h.filled) }
    ensures { FreeIs result (free_from (view layout.settings.size table.now) h.filled (h.filled - 1) h.removed) }
{
    let most = h.filled - 1;
    // 0 ends it, as in the layout.
    let mut at = h.removed;
    for members in 0..most {
        if at == 0 {
            return Ok(members);
        }
        if at >= h.filled {
            return Err(Refusal::FreeList);
        }
        let slot = Slot::of(table, layout, at);
        if !is_free(slot.bytes) {
            return Err(Refusal::FreeList);
        }
        at = read_next(slot.bytes);
    }
    if at == 0 {
        Ok(most)
    } else {
        Err(Refusal::FreeList)
    }
}
