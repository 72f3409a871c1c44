// Counts: the count of a record changed by a signed step, and the length of the free list.
ghost use Rattle.std.specs.Prelude.{◌≡◌};
ghost use Rattle.definition.specs.Answers.{changed_of, free_count_of};
ghost use Rattle.definition.specs.Calls.{change, free_count};

use counts::{after_step, check_count, store_count};
use definition::{Refusal, Settings};
use reader::Table;
use walks::free_list::check_free_refs;

// Changes the count of the record in a slot by a signed step; answers the stored count, or none where this was the last reference.
pub fn change_count(
    table: &mut [u8],
    s: Settings,
    slot: u64,
    step: i32,
) -> Result<Option<u32>, Refusal>
    ensures { (changed_of result, table.new) ≡ change s step slot table.old }
{
    let opened = Table::open(table, s)?;
    if !s.counted {
        return Err(Refusal::Uncounted);
    }
    let layout = opened.layout;
    let count = check_count(&opened, slot)?;
    let left = after_step(count, step);
    if let Some(n) = left {
        store_count(table, layout, slot, n);
    }
    Ok(left)
}

// The members of the free list.
pub fn free_count(table: &[u8], s: Settings) -> Result<u64, Refusal>
    ensures { free_count_of result ≡ free_count s table.now }
{
    let table = Table::open(table, s)?;
    check_free_refs(table.bytes, table.layout, table.header)
}
