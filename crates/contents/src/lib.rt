// The content of a chain copied out: any number of its bytes, from any place in it on. All of it inlined down to `copy_blocks`: reader's
// `Slot::parse_head` says why.
#![tactic(auto)]

ghost use Rattle.std.specs.Prelude.{◌≡◌, List, ℕ, ◌+◌, ◌-◌, ◌≤◌, min, length, take, drop};
ghost use Rattle.definition.specs.Numbers.{put};
ghost use Rattle.definition.specs.Chains.{sized_body};
ghost use Rattle.contents.specs.Pieces.{SizeFits, StartFits, PartFits, start_piece, start_next, part_piece, part_next, content_at, Copying, Copyable};

use definition::{LINK_OVERHEAD, SIZE_SIZE};
use numbers::blocks::copy_blocks;
use reader::{Slot, Table, is_continuation, part_size, read_head_next, read_next};

// A slot's piece of prefix and content, and the link to the next part, 0 if there is none, as slots store it and the definition has it.
#[derive(Clone, Copy)]
struct Piece<'a> {
    bytes: &'a [u8],
    next: u64,
}

// A plain slot, or a last part: as many bytes as its size word counts.
#[tactic(auto, unfolding(definition::specs::Chains::sized_body))]
#[inline(always)]
fn sized_piece<'a>(slot: &Slot<'a>) -> Piece<'a>
    requires { SizeFits slot.now.bytes.now }
    ensures { (result.bytes.now ≡ sized_body slot.now.bytes.now) × (result.next ≡ 0) }
{
    Piece {
        bytes: &slot.bytes[SIZE_SIZE..SIZE_SIZE + part_size(slot.bytes)],
        next: 0,
    }
}

// The piece in the slot where a chain starts: apart from a later part's, since another mark tells its kind and its link lies elsewhere.
#[tactic(auto, using(laws::proofs::Overheads::overhead_bounds), unfolding(crate::specs::Pieces::start_piece, crate::specs::Pieces::start_next))]
#[inline(always)]
fn start_piece<'a>(slot: &Slot<'a>) -> Piece<'a>
    requires { StartFits slot.now.layout.settings slot.now.bytes.now }
    ensures { (result.bytes.now ≡ start_piece slot.now.layout.settings slot.now.bytes.now) × (result.next ≡ start_next slot.now.layout.settings slot.now.bytes.now) }
{
    let s = slot.layout.settings;
    if !s.multipart {
        return sized_piece(slot);
    }
    Piece {
        bytes: &slot.bytes[s.head_overhead()..],
        next: read_head_next(slot.bytes, s),
    }
}

// The piece in a later part.
#[tactic(auto, unfolding(crate::specs::Pieces::part_piece, crate::specs::Pieces::part_next))]
#[inline(always)]
fn part_piece<'a>(slot: &Slot<'a>) -> Piece<'a>
    requires { PartFits slot.now.bytes.now }
    ensures { (result.bytes.now ≡ part_piece slot.now.bytes.now) × (result.next ≡ part_next slot.now.bytes.now) }
{
    if !is_continuation(slot.bytes) {
        return sized_piece(slot);
    }
    Piece {
        bytes: &slot.bytes[LINK_OVERHEAD..],
        next: read_next(slot.bytes),
    }
}

// Passes over `skip` bytes and copies n into out at `to` (see `copy_rest`), as far as the piece goes. It answers how many bytes it passed
// over, and how many it copied: what is left lies in later parts.
#[tactic(auto, using(laws::proofs::Puts::lent))]
#[inline(always)]
fn copy_piece(piece: &[u8], skip: usize, n: usize, out: &mut [u8], to: usize) -> (usize, usize)
    requires { to + n ≤ length out.old }
    ensures passed { result.0 ≡ min skip (length piece.now) }
    ensures copied { result.1 ≡ min (length piece.now - result.0) n }
    ensures laid { out.new ≡ put out.old to (take result.1 (drop result.0 piece.now)) }
{
    let k = skip.min(piece.len());
    let c = (piece.len() - k).min(n);
    copy_blocks(&mut out[to..to + c], &piece[k..k + c]);
    (k, c)
}

// Copies n bytes of the later parts from slot `start` on, after the first `from` of them, into out at `to`. A `while`, since how many parts
// that takes shows at its end only; and places, since a slice of what is left of out would have to be lent on anew by each part.
#[inline(always)]
fn copy_rest(table: &Table, start: u64, from: usize, n: usize, out: &mut [u8], to: usize)
    requires { (T : List ℕ) × Copying table.now.layout.settings table.now.bytes.now T start from n out.old to }
    ensures { (T : List ℕ) → Copying table.now.layout.settings table.now.bytes.now T start from n out.old to → out.new ≡ T }
{
    let mut at = start;
    let mut skip = from;
    let mut left = n;
    let mut pos = to;
    while left > 0 {
        let piece = part_piece(&Slot::of(table.bytes, table.layout, at));
        let (passed, copied) = copy_piece(piece.bytes, skip, left, out, pos);
        at = piece.next;
        skip -= passed;
        left -= copied;
        pos += copied;
    }
}

// Copies n bytes of the content of the chain in slot `at`, from place `from` of the content on, to the front of out.
#[inline(always)]
pub fn copy_content(table: &Table, at: u64, from: usize, n: usize, out: &mut [u8])
    requires { Copyable table.now.layout.settings table.now.bytes.now at from n out.old }
    ensures { out.new ≡ put out.old 0 (take n (drop from (content_at table.now.layout.settings table.now.bytes.now at))) }
{
    let piece = start_piece(&Slot::of(table.bytes, table.layout, at));
    let skip = table.layout.settings.prefix_len() + from;
    let (passed, copied) = copy_piece(piece.bytes, skip, n, out, 0);
    copy_rest(table, piece.next, skip - passed, n - copied, out, copied);
}
