// Insert, replace and remove: each is its checks, which write nothing, and then its effect, which refuses nothing.
ghost use Rattle.std.specs.Prelude.{◌≡◌};
ghost use Rattle.definition.specs.Answers.{inserted_of, written_of};
ghost use Rattle.definition.specs.Calls.{insert, replace, remove};

use checks::writing::{check_insert, check_remove, check_replace};
use definition::{Refusal, Settings};
use writes::records::{free_record, write_record};

// Stores a record under a key with its content and compressed mark; answers the slot of its head. There is no chain to write over: 0.
pub fn insert(
    table: &mut [u8],
    s: Settings,
    key: &[u8],
    content: &[u8],
    mark: bool,
) -> Result<u64, Refusal>
    ensures { (inserted_of result, table.new) ≡ insert s key.now content.now mark table.old }
{
    let layout = check_insert(table, s, key, content)?;
    Ok(write_record(table, layout, key, content, mark, 0, false))
}

// Replaces the record whose head is in the slot: key, content and mark anew, the count 1 again.
pub fn replace(
    table: &mut [u8],
    s: Settings,
    slot: u64,
    key: &[u8],
    content: &[u8],
    mark: bool,
) -> Result<(), Refusal>
    ensures { (written_of result, table.new) ≡ replace s key.now content.now mark slot table.old }
{
    let fitted = check_replace(table, s, key, content, slot)?;
    write_record(table, fitted.layout, key, content, mark, slot, fitted.same);
    Ok(())
}

// Removes the record whose head is in the slot.
pub fn remove(table: &mut [u8], s: Settings, slot: u64) -> Result<(), Refusal>
    ensures { (written_of result, table.new) ≡ remove s slot table.old }
{
    let layout = check_remove(table, s, slot)?;
    free_record(table, layout, slot);
    Ok(())
}
