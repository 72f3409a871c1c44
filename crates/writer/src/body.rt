// What a chain holds: a prefix, then a content.
ghost use Rattle.std.specs.Prelude.{◌≡◌, ◌+◌, ◌≤◌, length, take, drop};
ghost use Rattle.writer.specs.Bodies.{body_of};

use numbers::blocks::copy_blocks;

#[derive(Clone, Copy)]
pub struct Body<'a> {
    pub prefix: &'a [u8],
    pub content: &'a [u8],
}

impl<'a> Body<'a> {
    // The bytes of both.
    pub fn len(&self) -> usize
        ensures { result ≡ length (body_of self.now) }
    {
        self.prefix.len() + self.content.len()
    }

    // Fills `to` with the bytes from place `from` on.
    #[tactic(auto, using(crate::proofs::WriteLaws::body_across))]
    pub fn copy_to(&self, from: usize, to: &mut [u8])
        requires { from + length to.old ≤ length (body_of self.now) }
        ensures { to.new ≡ take (length to.old) (drop from (body_of self.now)) }
    {
        let p = self.prefix.len();
        let n = to.len();
        if from >= p {
            copy_blocks(to, &self.content[from - p..from - p + n]);
        } else if from + n <= p {
            copy_blocks(to, &self.prefix[from..from + n]);
        } else {
            let k = p - from;
            copy_blocks(&mut to[..k], &self.prefix[from..]);
            copy_blocks(&mut to[k..], &self.content[..n - k]);
        }
    }
}
