// The count of a record: found in its slot, with the tests of slot and head, changed by a signed step, and stored in its place.
#![tactic(auto)]

ghost use Rattle.std.specs.Prelude.{◌≡◌, ◌+◌, ◌*◌, ◌≤◌, length};
ghost use Rattle.definition.specs.Numbers.{bytes, put};
ghost use Rattle.definition.specs.Settings.{start_overhead};
ghost use Rattle.definition.specs.Calls.{new_count};
ghost use Rattle.reader.specs.Opened.{slots_of};
ghost use Rattle.counts.specs.Counts.{CountIs, stepped_to};

use definition::{LOCKED_REF, Refusal};
use numbers::Number;
use reader::{Table, read_count};
use slots::layout::Layout;

// The tests of a count change in slot `at`: the slot and the head, whose count it answers.
#[tactic(auto, unfolding(definition::specs::Calls::checked_key_test))]
pub fn check_count(table: &Table, at: u64) -> Result<u32, Refusal>
    ensures { CountIs result table.now.layout.settings (slots_of table.now) at }
{
    let slot = table.record_slot(at)?;
    slot.parse_head(None, Refusal::Absent)?;
    Ok(read_count(slot.bytes, slot.layout.settings))
}

// A positive step adds, stopping at the lock; a zero or negative one leaves a locked count, else takes its magnitude off. None is left
// where that takes all: not checked_sub, since a count that falls to 0 is none too.
#[tactic(auto, using(crate::proofs::StepLaws::steps))]
pub fn after_step(count: u32, step: i32) -> Option<u32>
    ensures { result ≡ stepped_to (new_count count step) }
{
    let m = step.unsigned_abs();
    if step > 0 {
        Some(count.saturating_add(m))
    } else if count == LOCKED_REF {
        Some(LOCKED_REF)
    } else if count <= m {
        None
    } else {
        Some(count - m)
    }
}

// Stores a count in its place in slot i; nothing else changes. Table and layout are apart as in writer: what is written is lent.
#[tactic(auto, using(laws::proofs::Overheads::start_most))]
pub fn store_count(table: &mut [u8], layout: Layout, i: u64, count: u32)
    requires { i * layout.settings.size + layout.settings.size ≤ length table.old }
    ensures { table.new ≡ put table.old (i * layout.settings.size + start_overhead layout.settings) (bytes 4 count) }
{
    let at = layout.slot(i).start + layout.settings.start_overhead();
    count.write(table, at);
}
