// Bytes copied, in blocks: from some 8 KiB on the C library moves a piece in another way, which takes up to 1.6 times as long (docs/SPEED.md,
// "Long pieces").
ghost use Rattle.std.specs.Prelude.{◌≡◌, length};

// The bytes of a block. A part of a multipart table is no longer, and so one block.
const BLOCK: usize = 4096;

// Copies all of `from`, which is as long, over `to`. Never inlined: where the compiler sees that the two can't overlap it asks the C library
// for memcpy too, and the header promises memmove alone. Most pieces are one block, and a call of memmove is then all that there is to do.
#[inline(never)]
pub fn copy_blocks(to: &mut [u8], from: &[u8])
    requires { length to.old ≡ length from.now }
    ensures { to.new ≡ from.now }
{
    if from.len() <= BLOCK {
        to.copy_from_slice(from);
        return;
    }
    copy_long(to, from);
}

// The same, block by block. A `while`, since two slices are gone through at once and one of them is written.
#[tactic(auto, using(crate::proofs::BlockLaws::by_blocks))]
#[inline(never)]
fn copy_long(to: &mut [u8], from: &[u8])
    requires { length to.old ≡ length from.now }
    ensures { to.new ≡ from.now }
{
    let mut i = 0;
    while i < from.len() {
        let k = (from.len() - i).min(BLOCK);
        to[i..i + k].copy_from_slice(&from[i..i + k]);
        i += k;
    }
}
