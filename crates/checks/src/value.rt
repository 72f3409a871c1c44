// The value to be stored: tests 4 and 6, and the parts that it needs.
ghost use Rattle.std.specs.Prelude.{◌≡◌, true, cond, List, ℕ, ◌-◌, ◌<◌, leb, ltb, length};
ghost use Rattle.definition.specs.Settings.{word_bytes};
ghost use Rattle.definition.specs.Parts.{pieces};
ghost use Rattle.checks.specs.Stages.{ValuedIs};

use crate::key_bad;
use definition::{INDEX_SIZE, LINK_OVERHEAD, Refusal, SIZE_SIZE};
use slots::layout::Layout;

// Test 6: N bytes of prefix and content. Fixed: above E - 2; multipart: at most E - 2.
fn value_bad(layout: Layout, n: usize) -> bool
    ensures { result ≡ cond layout.settings.multipart (leb n (layout.settings.size - word_bytes)) (ltb (layout.settings.size - word_bytes) n) }
{
    let s = layout.settings;
    if s.multipart {
        return n <= s.size - SIZE_SIZE;
    }
    n > s.size - SIZE_SIZE
}

// The parts of n bytes of prefix and content: one on a fixed table, else a head and as many more as the rest takes.
#[tactic(auto, using(laws::proofs::Overheads::overhead_bounds))]
fn parts_needed(layout: Layout, n: usize) -> u64
    requires { layout.settings.multipart ≡ true → layout.settings.size - word_bytes < n }
    ensures { (body : List ℕ) → length body ≡ n → result ≡ length (pieces layout.settings body) }
{
    let s = layout.settings;
    if !s.multipart {
        return 1;
    }
    let rest = n - (s.size - s.head_overhead());
    let full = s.size - LINK_OVERHEAD;
    // A last part holds as many bytes more than a continuation as a link has: a rest one byte longer needs one part more.
    ((rest - (INDEX_SIZE + 1)) / full + 2) as u64
}

// Tests 4 and 6, and the parts needed.
#[tactic(auto, using(laws::proofs::Sizes::prefix_most), unfolding(definition::specs::Calls::key_test, definition::specs::Calls::value_test, definition::specs::Tests::refuse, definition::specs::Tests::first))]
pub fn check_value(layout: Layout, key: &[u8], content: &[u8]) -> Result<u64, Refusal>
    ensures { ValuedIs result layout.settings key.now content.now }
{
    if key_bad(layout.settings, key) {
        return Err(Refusal::Key);
    }
    let n = layout.settings.prefix_len() + content.len();
    if value_bad(layout, n) {
        return Err(Refusal::Value);
    }
    Ok(parts_needed(layout, n))
}
