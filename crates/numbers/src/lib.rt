// Numbers in slices: little-endian numbers read and stored, and marks as pairs of bytes; and bytes copied.
// Of a slot it knows only that its mark stands first.
#![tactic(auto)]

pub mod blocks;

ghost use Rattle.std.specs.Prelude.{◌≡◌, ℕ, [], ◌∷◌, ◌+◌, ◌≤◌, length, get_or};
ghost use Rattle.definition.specs.Numbers.{bytes, num, put};
ghost use Rattle.definition.specs.Slots.{marked};

// ---- numbers

// A number as a slot holds it: so many bytes, the lowest first.
pub trait Number: Copy {
    // How many bytes.
    const SIZE: usize;

    ghost SIZE: { ℕ };

    ghost value: { Self → ℕ };

    // The number at place `at`, which is another at each call: slice and place that go together are entry's `EntryRef`.
    fn read(s: &[u8], at: usize) -> Self
        requires { at + SIZE ≤ length s.now }
        ensures { value result ≡ num at SIZE s.now };

    // Stores it at place `at`.
    fn write(self, s: &mut [u8], at: usize)
        requires { at + SIZE ≤ length s.old }
        ensures { s.new ≡ put s.old at (bytes SIZE (value self)) };
}

// The three differ in the width alone, and are written out: an impl by a macro of ours is refused. Their bytes stand one by one, since wrong
// orders of them are must-fail edits.
impl Number for u16 {
    const SIZE: usize = 2;

    ghost SIZE = { 2 };

    ghost value = { λ n. n };

    #[tactic(auto, using(crate::proofs::Widths::spelt))]
    fn read(s: &[u8], at: usize) -> u16 {
        let b = &s[at..at + 2];
        u16::from_le_bytes([b[0], b[1]])
    }

    #[tactic(auto, using(crate::proofs::Widths::stored))]
    fn write(self, s: &mut [u8], at: usize) {
        s[at..at + 2].copy_from_slice(&self.to_le_bytes());
    }
}

impl Number for u32 {
    const SIZE: usize = 4;

    ghost SIZE = { 4 };

    ghost value = { λ n. n };

    #[tactic(auto, using(crate::proofs::Widths::spelt))]
    fn read(s: &[u8], at: usize) -> u32 {
        let b = &s[at..at + 4];
        u32::from_le_bytes([b[0], b[1], b[2], b[3]])
    }

    #[tactic(auto, using(crate::proofs::Widths::stored))]
    fn write(self, s: &mut [u8], at: usize) {
        s[at..at + 4].copy_from_slice(&self.to_le_bytes());
    }
}

impl Number for u64 {
    const SIZE: usize = 8;

    ghost SIZE = { 8 };

    ghost value = { λ n. n };

    #[tactic(auto, using(crate::proofs::Widths::spelt))]
    fn read(s: &[u8], at: usize) -> u64 {
        let b = &s[at..at + 8];
        u64::from_le_bytes([b[0], b[1], b[2], b[3], b[4], b[5], b[6], b[7]])
    }

    #[tactic(auto, using(crate::proofs::Widths::stored))]
    fn write(self, s: &mut [u8], at: usize) {
        s[at..at + 8].copy_from_slice(&self.to_le_bytes());
    }
}

// ---- marks

// Whether the slot starts with the mark.
#[tactic(auto, using(crate::proofs::Marks::marked_pair))]
pub fn has_mark(slot: &[u8], mark: &[u8; 2]) -> bool
    requires { 2 ≤ length slot.now }
    ensures { result ≡ marked (get_or mark.now 0 0 ∷ get_or mark.now 1 0 ∷ []) slot.now }
{
    slot[..2] == mark[..]
}

// Stores the mark at the slot's start.
#[tactic(auto, using(crate::proofs::Marks::put_pair))]
pub fn write_mark(slot: &mut [u8], mark: &[u8; 2])
    requires { 2 ≤ length slot.old }
    ensures { slot.new ≡ put slot.old 0 (get_or mark.now 0 0 ∷ get_or mark.now 1 0 ∷ []) }
{
    slot[..2].copy_from_slice(mark);
}
