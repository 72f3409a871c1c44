// The partial key, bytes 6 to 31 of the 32-byte hash: compared with the one in a slot, and written after the count. The comparison is
// inlined: reader's `Slot::parse_head` says why.
ghost use Rattle.std.specs.Prelude.{◌≡◌, ◌+◌, ◌≤◌, length, take, drop};
ghost use Rattle.definition.specs.Numbers.{same_bytes};
ghost use Rattle.definition.specs.Settings.{key_bytes, hash_bytes, prefix_len};
ghost use Rattle.definition.specs.Slots.{partial_key};
ghost use Rattle.definition.specs.Chains.{key_differs};
ghost use Rattle.definition.specs.Parts.{prefix};
ghost use Rattle.definition.specs.Calls.{key_test, checked_key_test};
ghost use Rattle.slots.specs.Keys.{lent_key};

use crate::layout::Layout;
use definition::{KEY_SKIP, PARTIAL_SIZE, PREFIX_SIZE, Settings};
use entry::PartialKey;
use numbers::Number;

// Whether the 26 bytes of the slot at place `at` are the key's bytes 6 to 31. Two slices, each with a place of its own.
#[tactic(auto, using(crate::proofs::KeyLaws::same_words))]
#[inline(always)]
fn same_key(slot: &[u8], at: usize, key: &[u8]) -> bool
    requires { (at + key_bytes ≤ length slot.now) × (length key.now ≡ hash_bytes) }
    ensures { result ≡ same_bytes (take key_bytes (drop at slot.now)) (partial_key key.now) }
{
    PartialKey::at(slot, at) == PartialKey::at(key, KEY_SKIP)
}

// Whether the key that is checked, if one is, differs from the one in the slot. An unkeyed table ignores it, whatever its length: so here
// and above test 4 is asked, and no type of a whole key stands for it, which would ask more. And of the slot its bytes: `Slot` is made above.
#[tactic(auto, using(crate::proofs::KeyLaws::asked_keys))]
#[inline(always)]
pub fn key_differs(slot: &[u8], layout: Layout, key: Option<&[u8]>) -> bool
    requires { (length slot.now ≡ layout.settings.size) × (checked_key_test layout.settings (lent_key key) ≡ 0) }
    ensures { result ≡ key_differs layout.settings (lent_key key.entry) slot.now }
{
    let s = layout.settings;
    match key {
        Some(key) if s.keyed => !same_key(slot, s.start_overhead() + s.count_len(), key),
        _ => false,
    }
}

// Writes the prefix of a new record, a count of 1 and the partial key, at the front of a buffer, and answers its length: the part itself,
// handed out, would leave open what the buffer holds afterwards.
#[tactic(auto, using(crate::proofs::KeyLaws::key_whole, laws::proofs::Overheads::count_most))]
pub fn write_prefix(buf: &mut [u8; PREFIX_SIZE], s: Settings, key: &[u8]) -> usize
    requires { key_test s key.now ≡ 0 }
    ensures { (take result buf.new ≡ prefix s key.now) × (result ≡ prefix_len s) }
{
    if s.counted {
        1u32.write(buf, 0);
    }
    let at = s.count_len();
    if s.keyed {
        // So many bytes, and not all that are left: a constant length is moved inline, for another the C library is asked for memcpy.
        buf[at..at + PARTIAL_SIZE].copy_from_slice(&key[KEY_SKIP..KEY_SKIP + PARTIAL_SIZE]);
    }
    s.prefix_len()
}
