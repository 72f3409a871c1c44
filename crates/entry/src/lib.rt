// The reader of one slot: the slot and the place of the next byte, in one struct, as Rust's EntryRef.
#![tactic(auto)]

ghost use Rattle.std.specs.Prelude.{◌≡◌, ◌+◌, ◌≤◌, length};
ghost use Rattle.definition.specs.Numbers.{num};
ghost use Rattle.definition.specs.Settings.{key_bytes};

use definition::PARTIAL_SIZE;
use numbers::Number;

// The slot that is read, and the place of the next byte.
#[derive(Drop)]
pub struct EntryRef<'a> {
    pub slot: &'a [u8],
    pub at: usize,
    pub ghost within: { at ≤ length slot.now },
}

// A partial key, 26 bytes as numbers: three of eight bytes and one of two.
#[derive(Clone, Copy, Debug, PartialEq, Eq)]
pub struct PartialKey {
    pub first: u64,
    pub second: u64,
    pub third: u64,
    pub last: u16,
}

impl PartialKey {
    ghost use Rattle.entry.specs.Reading.{key_at};

    // The partial key at place `at`, another at each call. Its words stand one by one: a word read too early is a must-fail edit.
    pub fn at(s: &[u8], at: usize) -> PartialKey
        requires { at + key_bytes ≤ length s.now }
        ensures { result ≡ key_at at s.now }
    {
        PartialKey {
            first: u64::read(s, at),
            second: u64::read(s, at + 8),
            third: u64::read(s, at + 16),
            last: u16::read(s, at + 24),
        }
    }
}

impl<'a> EntryRef<'a> {
    ghost use Rattle.entry.specs.Reading.{key_at, Moved};

    // A reader at the slot's start.
    pub fn new(slot: &'a [u8]) -> EntryRef<'a>
        ensures { (result.slot ≡ slot.entry) × (result.at ≡ 0) }
    {
        EntryRef { slot, at: 0 }
    }

    // How many bytes are left.
    pub fn left(&self) -> usize
        ensures { result + self.now.at ≡ length self.now.slot.now }
    {
        self.slot.len() - self.at
    }

    // Moves on by n bytes. What must lie behind the place is another number here and in each read below, so each asks it.
    pub fn skip(&mut self, n: usize)
        requires { self.old.at + n ≤ length self.old.slot.now }
        ensures { Moved self.old self.new n }
    {
        self.at += n;
    }

    // The number at the reader's place, which moves past it.
    pub fn read<N: Number>(&mut self) -> N
        requires { self.old.at + N.SIZE ≤ length self.old.slot.now }
        ensures { (N.value result ≡ num self.old.at N.SIZE self.old.slot.now) × Moved self.old self.new N.SIZE }
    {
        let at = self.at;
        let n = N::read(self.slot, at);
        self.at = at + N::SIZE;
        n
    }

    // The partial key at the reader's place, which moves past it.
    pub fn read_key(&mut self) -> PartialKey
        requires { self.old.at + key_bytes ≤ length self.old.slot.now }
        ensures { (result ≡ key_at self.old.at self.old.slot.now) × Moved self.old self.new key_bytes }
    {
        let k = PartialKey::at(self.slot, self.at);
        self.at += PARTIAL_SIZE;
        k
    }
}

// The eight-byte number at place `at` of a slot, by a reader that skips to it: for one number a caller would make a reader and drop it.
pub fn u64_at(slot: &[u8], at: usize) -> u64
    requires { at + 8 ≤ length slot.now }
    ensures { result ≡ num at 8 slot.now }
{
    let mut r = EntryRef::new(slot);
    r.skip(at);
    r.read()
}
