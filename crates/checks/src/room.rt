// Room for new slots: the free list walked and counted, tests 11 and 12.
ghost use Rattle.std.specs.Prelude.{◌≡◌, ◌+◌, ltb};
ghost use Rattle.checks.specs.Stages.{RoomIs};

use definition::Refusal;
use reader::Table;
use walks::free_list::check_free_refs;

// Test 12: the slots needed exceed the free ones and the unused ones at the end.
fn room_bad(members: u64, unused: u64, need: u64) -> bool
    ensures { result ≡ ltb (members + unused) need }
{
    need.saturating_sub(members) > unused
}

// Tests 11 and 12, for so many new slots.
pub fn check_room(table: &Table, need: u64) -> Result<(), Refusal>
    ensures { RoomIs result table.now.layout.settings table.now.bytes.now need }
{
    let members = check_free_refs(table.bytes, table.layout, table.header)?;
    if room_bad(members, table.capacity() - table.header.filled, need) {
        return Err(Refusal::Room);
    }
    Ok(())
}
