// The writing loop: prefix and content laid into slots, what is left of the old chain freed, the header stored.
// Nothing here refuses: the checks are made before, by others, and from the first store on nothing can go wrong.
// 0 stands for no slot, as in the layout and in the definition's words for it (`Linked`, `taken_from`): an Option would be made of each link
// and unmade again. The header stays beside the table: it runs ahead of the one in slot 0. And the table stays slots linked by number, with no
// list over it: that is the layout, on lent bytes.
#![tactic(auto)]

pub mod records;

ghost use Rattle.std.specs.Prelude.{◌≡◌, ℕ, ◌+◌, ◌-◌, ◌*◌, ◌≤◌, ◌<◌, length};
ghost use mathlib.Core.List.{List, head_d};
ghost use Rattle.definition.specs.Numbers.{put};
ghost use Rattle.definition.specs.Settings.{word_bytes};
ghost use Rattle.definition.specs.Slots.{view, store};
ghost use Rattle.definition.specs.Parts.{free_slot, pieces};
ghost use Rattle.definition.specs.Effect.{new_slots, effect};
ghost use Rattle.writer.specs.Bodies.{body_of};
ghost use Rattle.writes.specs.Steps.{next_part, taken_from, freed_onto, linked_part, place_after, clear_stores};
ghost use Rattle.writes.specs.Ready.{Fit, Ready, Freeing};

use definition::{Header, LINK_OVERHEAD, SIZE_SIZE};
use reader::{Slot, is_continuation, is_head, read_head_next, read_next};
use slots::header::write_header;
use slots::layout::Layout;
use writer::{Body, store_continuation, store_free, store_head, store_sized};

// A slot that was taken; then the old chain's next slot, 0 if there is none, and LAST_REMOVED and FILLED.
#[derive(Clone, Copy)]
struct Taken {
    slot: u64,
    rest: u64,
    header: Header,
}

// The slot that a part links to: a head's link, a continuation's link, 0 for any other slot.
#[tactic(auto, unfolding(crate::specs::Steps::next_part))]
fn next_part(slot: &Slot) -> u64
    ensures { result ≡ next_part slot.now.layout.settings slot.now.bytes.now }
{
    let s = slot.layout.settings;
    if !s.multipart {
        return 0;
    }
    if is_head(slot.bytes) {
        return read_head_next(slot.bytes, s);
    }
    if is_continuation(slot.bytes) {
        return read_next(slot.bytes);
    }
    0
}

// The next slot to write: the old chain's slot `at`, else LAST_REMOVED, else FILLED. Its link is read at once, before it is written.
#[tactic(auto, unfolding(crate::specs::Steps::taken_from))]
fn next_free(table: &[u8], layout: Layout, at: u64, h: Header) -> Taken
    requires { (at * layout.settings.size + layout.settings.size ≤ length table.now)
        × (h.removed * layout.settings.size + layout.settings.size ≤ length table.now) × (h.filled * layout.settings.size ≤ length table.now) }
    ensures { result ≡ taken_from layout.settings (view layout.settings.size table.now) at h }
{
    if at != 0 {
        return Taken {
            slot: at,
            rest: next_part(&Slot::of(table, layout, at)),
            header: h,
        };
    }
    if h.removed != 0 {
        return Taken {
            slot: h.removed,
            rest: 0,
            header: Header {
                removed: read_next(Slot::of(table, layout, h.removed).bytes),
                ..h
            },
        };
    }
    Taken {
        slot: h.filled,
        rest: 0,
        header: Header {
            removed: 0,
            filled: h.filled + 1,
        },
    }
}

// Frees slot i: ff ff and the old LAST_REMOVED are written, and it becomes LAST_REMOVED.
fn clear_slot(table: &mut [u8], layout: Layout, i: u64, h: Header) -> Header
    requires { i * layout.settings.size + layout.settings.size ≤ length table.old }
    ensures { (table.new ≡ put table.old (i * layout.settings.size) (free_slot h.removed)) × (result ≡ freed_onto i h) }
{
    store_free(table, layout, i, h.removed);
    Header { removed: i, ..h }
}

// Frees the chain from slot `at` on, first to last, and stores the header, unless no slot was taken or freed (`same`: one store more or less,
// for which a closure would be no plainer). A `while`: links are followed, and nothing is counted. The lists that it is promised of are none of
// the code's, so a record of them stands in each contract, and no type.
fn clear_chain(table: &mut [u8], layout: Layout, at: u64, h: Header, same: bool)
    requires { (old : List ℕ) × (free : List ℕ) × Freeing layout.settings table.old old free at h }
    ensures { (old free : List ℕ) → Freeing layout.settings table.old old free at h
        → table.new ≡ store layout.settings.size table.old (clear_stores same old free h.filled) }
{
    let mut slot = at;
    let mut header = h;
    while slot != 0 {
        let next = next_part(&Slot::of(table, layout, slot));
        header = clear_slot(table, layout, slot, header);
        slot = next;
    }
    if !same {
        write_header(table, header);
    }
}

// A part with a link in slot i: a head at place 0, else a continuation. Answers the place after what it holds.
#[tactic(auto, using(laws::proofs::Overheads::overhead_bounds), unfolding(crate::specs::Steps::linked_part, crate::specs::Steps::piece_at, crate::specs::Steps::place_after, crate::specs::Steps::overhead_at))]
fn store_linked(
    table: &mut [u8],
    layout: Layout,
    i: u64,
    mark: bool,
    next: u64,
    body: &Body,
    pos: usize,
) -> usize
    requires { (i * layout.settings.size + layout.settings.size ≤ length table.old) × (pos + (layout.settings.size - word_bytes) < length (body_of body.now)) }
    ensures { (table.new ≡ put table.old (i * layout.settings.size) (linked_part layout.settings mark (length body.now.content.now) next pos (body_of body.now)))
        × (result ≡ place_after layout.settings pos) }
{
    let s = layout.settings;
    if pos == 0 {
        store_head(
            table,
            layout,
            i,
            mark,
            body.content.len() as u64,
            next,
            body,
        );
        return s.size - s.head_overhead();
    }
    store_continuation(table, layout, i, next, body, pos);
    pos + (s.size - LINK_OVERHEAD)
}

// Lays a body into the slots of the old chain at `at` (none where it is 0), then into free ones, then into unused ones, frees what is
// left of the old chain and stores the header, unless no slot was taken or freed. Answers the first slot. `pos` is a place in prefix and
// content at once, and moves by what a part holds: no slice of either stands for it, and how many parts that takes shows as they are written.
fn overwrite_chain(
    table: &mut [u8],
    layout: Layout,
    mark: bool,
    body: &Body,
    at: u64,
    h: Header,
    same: bool,
) -> u64
    requires { Fit layout.settings (body_of body.now)
        × ((old : List ℕ) × (free : List ℕ) × Ready layout.settings same (body_of body.now) table.old old free at h) }
    ensures { (old free : List ℕ) → Ready layout.settings same (body_of body.now) table.old old free at h
        → (table.new ≡ store layout.settings.size table.old (effect layout.settings mark (length body.now.content.now) (pieces layout.settings (body_of body.now)) old free h.filled))
        × (result ≡ head_d (new_slots old free h.filled (length (pieces layout.settings (body_of body.now)))) 0) }
{
    let len = body.len();
    let first = next_free(table, layout, at, h);
    let mut to = first;
    let mut pos: usize = 0;
    while len - pos > layout.settings.size - SIZE_SIZE {
        let next = next_free(table, layout, to.rest, to.header);
        pos = store_linked(table, layout, to.slot, mark, next.slot, body, pos);
        to = next;
    }
    store_sized(table, layout, to.slot, mark, body, pos);
    clear_chain(table, layout, to.rest, to.header, same);
    first.slot
}
