// A slot of a table whose settings passed test 1, whole, and its parse.
ghost use Rattle.std.specs.Prelude.{◌≡◌, Bool, ◌&&◌, not, ◌-◌, ◌+◌, ◌*◌, ◌≤◌, ltb, length};
ghost use Rattle.definition.specs.Tests.{number_of};
ghost use Rattle.definition.specs.Settings.{word_bytes, prefix_len};
ghost use Rattle.definition.specs.Slots.{size_of, view};
ghost use Rattle.definition.specs.Chains.{head_parse, later_parse};
ghost use Rattle.definition.specs.Answers.{parse_of};
ghost use Rattle.definition.specs.Calls.{checked_key_test};
ghost use Rattle.slots.specs.Keys.{lent_key};

use crate::bytes::{
    is_continuation, is_free, is_head, part_size, read_count, read_head_next, read_next,
    starts_chain,
};
use definition::{LINK_OVERHEAD, Part, PartKind, Refusal, SIZE_SIZE};
use slots::keys::key_differs;
use slots::layout::Layout;

#[derive(Clone, Copy)]
pub struct Slot<'a> {
    pub bytes: &'a [u8],
    pub layout: Layout,
    pub ghost whole: { length bytes.now ≡ layout.settings.size },
}

impl<'a> Slot<'a> {
    // Slot i of a table, which may be one that is being written: so of bytes and layout.
    #[tactic(auto, unfolding(definition::specs::Slots::view))]
    #[inline(always)]
    pub fn of(table: &'a [u8], layout: Layout, i: u64) -> Slot<'a>
        requires { i * layout.settings.size + layout.settings.size ≤ length table.now }
        ensures { (result.bytes.now ≡ view layout.settings.size table.now i) × (result.layout ≡ layout) }
    {
        Slot {
            bytes: &table[layout.slot(i)],
            layout,
        }
    }

    // Whether a plain slot counts fewer bytes than the prefix has. It and the next are two tests, since the count is tested between them.
    fn size_below_prefix(&self) -> bool
        ensures { result ≡ (not self.now.layout.settings.multipart && ltb (size_of self.now.bytes.now) (prefix_len self.now.layout.settings)) }
    {
        let s = self.layout.settings;
        !s.multipart && part_size(self.bytes) < s.prefix_len()
    }

    // Whether a plain slot counts more bytes than the slot holds.
    fn size_above_slot(&self) -> bool
        ensures { result ≡ (not self.now.layout.settings.multipart && ltb (self.now.layout.settings.size - word_bytes) (size_of self.now.bytes.now)) }
    {
        let s = self.layout.settings;
        !s.multipart && part_size(self.bytes) > s.size - SIZE_SIZE
    }

    // The slot where a chain starts: its tests in order, then its kind, with its link, and the bytes that it holds.
    // `mismatch` is the refusal of a checked key that differs. Inlined, as is all that a read goes through down to the copy: slot, table
    // and key then need not lie in memory, which is up to a third of a fixed read's time (docs/SPEED.md, "What is handed on in memory").
    #[tactic(auto, using(laws::proofs::Overheads::overhead_bounds), unfolding(definition::specs::Chains::head_parse, definition::specs::Chains::head_fault, definition::specs::Chains::start_part, definition::specs::Chains::unless_refused, definition::specs::Tests::first, definition::specs::Tests::refuse))]
    #[inline(always)]
    pub fn parse_head(&self, key: Option<&[u8]>, mismatch: Refusal) -> Result<Part, Refusal>
        requires { checked_key_test self.now.layout.settings (lent_key key) ≡ 0 }
        ensures { parse_of result ≡ head_parse self.now.layout.settings (lent_key key.entry) (number_of mismatch) self.now.bytes.now }
    {
        let s = self.layout.settings;
        if !starts_chain(self.bytes, s) {
            return Err(Refusal::Absent);
        }
        if self.size_below_prefix() {
            return Err(Refusal::Size);
        }
        if read_count(self.bytes, s) == 0 {
            return Err(Refusal::Absent);
        }
        if key_differs(self.bytes, self.layout, key) {
            return Err(mismatch);
        }
        if self.size_above_slot() {
            return Err(Refusal::Size);
        }
        if s.multipart {
            return Ok(Part {
                kind: PartKind::Head(read_head_next(self.bytes, s)),
                bytes: s.size - s.head_overhead(),
            });
        }
        Ok(Part {
            kind: PartKind::Last(0),
            bytes: part_size(self.bytes),
        })
    }

    // A later part of a chain: its kind, with its link, and the bytes that it holds.
    #[tactic(auto, unfolding(definition::specs::Chains::later_parse, definition::specs::Chains::last_fault, definition::specs::Chains::unless_refused, definition::specs::Tests::refuse))]
    #[inline(always)]
    pub fn parse_later(&self) -> Result<Part, Refusal>
        ensures { (mark after_head : Bool) → parse_of result ≡ later_parse self.now.layout.settings mark after_head self.now.bytes.now }
    {
        let size = self.layout.settings.size;
        if is_free(self.bytes) {
            return Err(Refusal::Chain);
        }
        if is_head(self.bytes) {
            return Err(Refusal::Chain);
        }
        if is_continuation(self.bytes) {
            return Ok(Part {
                kind: PartKind::Continuation(read_next(self.bytes)),
                bytes: size - LINK_OVERHEAD,
            });
        }
        let bytes = part_size(self.bytes);
        if bytes > size - SIZE_SIZE {
            return Err(Refusal::Size);
        }
        Ok(Part {
            kind: PartKind::Last(0),
            bytes,
        })
    }
}
