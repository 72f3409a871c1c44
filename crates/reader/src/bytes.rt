// What stands at the front of a slot. Each function asks the bytes that it reads, and a `Slot` would ask a whole slot of a caller that has
// fewer: so they stay functions over bytes. Each mark has its own, and so have a link and a total, since the documents name them and the
// definition says another thing of each; what they share is `has_mark` and `u64_at`.
ghost use Rattle.std.specs.Prelude.{◌≡◌, ◌≤◌, length};
ghost use Rattle.definition.specs.Settings.{word_bytes, link_overhead};
ghost use Rattle.definition.specs.Slots.{marked, compressed_mark, is_free, is_continuation, is_head, size_of, total_of, head_link, link_of, starts, count_of, mark_of};

use definition::{COMPRESSED_MASK, INDEX_SIZE, SIZE_SIZE, Settings};
use entry::u64_at;
use numbers::{Number, has_mark};

// ---- marks

// ff ff: a free slot.
#[tactic(auto, unfolding(definition::specs::Slots::is_free))]
pub fn is_free(slot: &[u8]) -> bool
    requires { word_bytes ≤ length slot.now }
    ensures { result ≡ is_free slot.now }
{
    has_mark(slot, b"\xff\xff")
}

// fe ff: a continuation.
#[tactic(auto, unfolding(definition::specs::Slots::is_continuation))]
pub fn is_continuation(slot: &[u8]) -> bool
    requires { word_bytes ≤ length slot.now }
    ensures { result ≡ is_continuation slot.now }
{
    has_mark(slot, b"\xfe\xff")
}

// fd 7f: a compressed head.
pub fn is_compressed_head(slot: &[u8]) -> bool
    requires { word_bytes ≤ length slot.now }
    ensures { result ≡ marked compressed_mark slot.now }
{
    has_mark(slot, b"\xfd\x7f")
}

// fd ff or fd 7f: a head.
#[tactic(auto, unfolding(definition::specs::Slots::is_head))]
pub fn is_head(slot: &[u8]) -> bool
    requires { word_bytes ≤ length slot.now }
    ensures { result ≡ is_head slot.now }
{
    has_mark(slot, b"\xfd\xff") || is_compressed_head(slot)
}

// ---- sizes, links, counts

// The size word's low 15 bits.
#[tactic(auto, unfolding(definition::specs::Slots::size_of, definition::specs::Slots::size_word))]
pub fn part_size(slot: &[u8]) -> usize
    requires { word_bytes ≤ length slot.now }
    ensures { result ≡ size_of slot.now }
{
    (u16::read(slot, 0) % COMPRESSED_MASK) as usize
}

// The link of a continuation or of a free slot.
#[tactic(auto, unfolding(definition::specs::Slots::link_of))]
pub fn read_next(slot: &[u8]) -> u64
    requires { link_overhead ≤ length slot.now }
    ensures { result ≡ link_of slot.now }
{
    u64_at(slot, SIZE_SIZE)
}

// The content length in a head.
#[tactic(auto, unfolding(definition::specs::Slots::total_of))]
pub fn read_total(slot: &[u8]) -> u64
    requires { link_overhead ≤ length slot.now }
    ensures { result ≡ total_of slot.now }
{
    u64_at(slot, SIZE_SIZE)
}

// The link of a head, right before its prefix.
#[tactic(auto, using(laws::proofs::Overheads::overhead_bounds), unfolding(definition::specs::Slots::head_link))]
pub fn read_head_next(slot: &[u8], s: Settings) -> u64
    requires { 18 ≤ length slot.now }
    ensures { result ≡ head_link s slot.now }
{
    u64_at(slot, s.head_overhead() - INDEX_SIZE)
}

// Whether a chain starts in the slot.
#[tactic(auto, unfolding(definition::specs::Slots::starts))]
pub fn starts_chain(slot: &[u8], s: Settings) -> bool
    requires { word_bytes ≤ length slot.now }
    ensures { result ≡ starts s slot.now }
{
    if s.multipart {
        is_head(slot)
    } else {
        !is_free(slot)
    }
}

// The count where a chain starts, 1 if uncounted.
#[tactic(auto, using(laws::proofs::Overheads::start_most), unfolding(definition::specs::Slots::count_of))]
pub fn read_count(slot: &[u8], s: Settings) -> u32
    requires { 22 ≤ length slot.now }
    ensures { result ≡ count_of s slot.now }
{
    if s.counted {
        u32::read(slot, s.start_overhead())
    } else {
        1
    }
}

// The compressed mark where a chain starts.
#[tactic(auto, unfolding(definition::specs::Slots::mark_of, definition::specs::Slots::top_bit, definition::specs::Slots::size_word))]
pub fn read_compressed(slot: &[u8], s: Settings) -> bool
    requires { word_bytes ≤ length slot.now }
    ensures { result ≡ mark_of s slot.now }
{
    if s.multipart {
        is_compressed_head(slot)
    } else {
        u16::read(slot, 0) >= COMPRESSED_MASK
    }
}
