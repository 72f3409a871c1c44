// One slot written: each kind of slot laid over its front, and the same in slot i of a table, where every other byte stays. Both forms stay:
// the one asks a slot alone, the other is what the documents name. Here and above a table that is written is a slice beside its layout, and
// `i` a number that fits it: a type that held the slice would have to say in each contract that the rest of it stays. A place in a body is
// another at each call, and what must lie behind it another for each kind of part.
#![tactic(auto)]

pub mod body;

ghost use Rattle.std.specs.Prelude.{◌≡◌, cond, ◌+◌, ◌-◌, ◌*◌, ◌≤◌, ◌<◌, length, take, drop};
ghost use Rattle.definition.specs.Numbers.{put};
ghost use Rattle.definition.specs.Settings.{word_bytes, link_overhead, head_overhead};
ghost use Rattle.definition.specs.Parts.{sized_part, continuation_part, head_part, free_slot};
ghost use Rattle.definition.specs.Slots.{head_mark, compressed_mark};
ghost use Rattle.writer.specs.Bodies.{body_of};

pub use body::Body;
use definition::{COMPRESSED_MASK, INDEX_SIZE, LINK_OVERHEAD, SIZE_SIZE, Settings};
use numbers::{Number, write_mark};
use slots::layout::Layout;

// A free slot: ff ff and the link.
#[tactic(auto, using(crate::proofs::WriteLaws::free_put))]
pub fn write_free(slot: &mut [u8], next: u64)
    requires { link_overhead ≤ length slot.old }
    ensures { slot.new ≡ put slot.old 0 (free_slot next) }
{
    write_mark(slot, b"\xff\xff");
    next.write(slot, SIZE_SIZE);
}

// A continuation: fe ff, the link, then the body from `pos` to the slot's end.
#[tactic(auto, using(crate::proofs::WriteLaws::continuation_put))]
pub fn write_continuation(slot: &mut [u8], next: u64, body: &Body, pos: usize)
    requires { (link_overhead ≤ length slot.old) × (pos + (length slot.old - link_overhead) ≤ length (body_of body.now)) }
    ensures { slot.new ≡ put slot.old 0 (continuation_part next (take (length slot.old - link_overhead) (drop pos (body_of body.now)))) }
{
    write_mark(slot, b"\xfe\xff");
    next.write(slot, SIZE_SIZE);
    body.copy_to(pos, &mut slot[LINK_OVERHEAD..]);
}

// A head's mark: fd ff, or fd 7f if compressed.
fn write_head_mark(slot: &mut [u8], mark: bool)
    requires { word_bytes ≤ length slot.old }
    ensures { slot.new ≡ put slot.old 0 (cond mark compressed_mark head_mark) }
{
    write_mark(slot, if mark { b"\xfd\x7f" } else { b"\xfd\xff" });
}

// A head: its mark, the content length, the link, then the body to the slot's end.
#[tactic(auto, using(crate::proofs::WriteLaws::head_put, laws::proofs::Overheads::overhead_bounds))]
pub fn write_head(slot: &mut [u8], s: Settings, mark: bool, total: u64, next: u64, body: &Body)
    requires { (18 ≤ length slot.old) × (length slot.old - head_overhead s ≤ length (body_of body.now)) }
    ensures { slot.new ≡ put slot.old 0 (head_part s mark total next (take (length slot.old - head_overhead s) (body_of body.now))) }
{
    let o = s.head_overhead();
    write_head_mark(slot, mark);
    total.write(slot, SIZE_SIZE);
    next.write(slot, o - INDEX_SIZE);
    body.copy_to(0, &mut slot[o..]);
}

// A size word: n, and the compressed mark as its top bit.
fn size_word(n: u16, mark: bool) -> u16
    requires { n < 0x8000 }
    ensures { result ≡ n + cond mark 0x8000 0 }
{
    if mark { n + COMPRESSED_MASK } else { n }
}

// A plain slot, or a last part: the size word, then what is left of the body from `pos` on.
#[tactic(auto, using(crate::proofs::WriteLaws::sized_put))]
pub fn write_sized(slot: &mut [u8], mark: bool, body: &Body, pos: usize)
    requires { (pos ≤ length (body_of body.now)) × (length (body_of body.now) - pos + word_bytes ≤ length slot.old) × (length (body_of body.now) - pos < 0x8000) }
    ensures { slot.new ≡ put slot.old 0 (sized_part mark (drop pos (body_of body.now))) }
{
    let n = body.len() - pos;
    size_word(n as u16, mark).write(slot, 0);
    body.copy_to(pos, &mut slot[SIZE_SIZE..SIZE_SIZE + n]);
}

// ---- the same in slot i of a table

// A free slot in slot i.
#[tactic(auto, using(crate::proofs::WriteLaws::slot_put, laws::proofs::Parts::length_free))]
pub fn store_free(table: &mut [u8], layout: Layout, i: u64, next: u64)
    requires { i * layout.settings.size + layout.settings.size ≤ length table.old }
    ensures { table.new ≡ put table.old (i * layout.settings.size) (free_slot next) }
{
    write_free(&mut table[layout.slot(i)], next);
}

// A continuation in slot i.
#[tactic(auto, using(crate::proofs::WriteLaws::continuation_stored))]
pub fn store_continuation(
    table: &mut [u8],
    layout: Layout,
    i: u64,
    next: u64,
    body: &Body,
    pos: usize,
)
    requires { (i * layout.settings.size + layout.settings.size ≤ length table.old) × (pos + (layout.settings.size - link_overhead) ≤ length (body_of body.now)) }
    ensures { table.new ≡ put table.old (i * layout.settings.size) (continuation_part next (take (layout.settings.size - link_overhead) (drop pos (body_of body.now)))) }
{
    write_continuation(&mut table[layout.slot(i)], next, body, pos);
}

// A head in slot i.
#[tactic(auto, using(crate::proofs::WriteLaws::head_stored, laws::proofs::Overheads::overhead_bounds))]
pub fn store_head(
    table: &mut [u8],
    layout: Layout,
    i: u64,
    mark: bool,
    total: u64,
    next: u64,
    body: &Body,
)
    requires { (i * layout.settings.size + layout.settings.size ≤ length table.old) × (layout.settings.size - head_overhead layout.settings ≤ length (body_of body.now)) }
    ensures { table.new ≡ put table.old (i * layout.settings.size) (head_part layout.settings mark total next (take (layout.settings.size - head_overhead layout.settings) (body_of body.now))) }
{
    write_head(
        &mut table[layout.slot(i)],
        layout.settings,
        mark,
        total,
        next,
        body,
    );
}

// A plain slot or a last part in slot i.
#[tactic(auto, using(crate::proofs::WriteLaws::sized_stored))]
pub fn store_sized(table: &mut [u8], layout: Layout, i: u64, mark: bool, body: &Body, pos: usize)
    requires { (i * layout.settings.size + layout.settings.size ≤ length table.old) × (pos ≤ length (body_of body.now)) × (length (body_of body.now) - pos ≤ layout.settings.size - word_bytes) }
    ensures { table.new ≡ put table.old (i * layout.settings.size) (sized_part mark (drop pos (body_of body.now))) }
{
    write_sized(&mut table[layout.slot(i)], mark, body, pos);
}
