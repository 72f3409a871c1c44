// All the tests of insert, replace and remove, in 01's order, of table, settings, key and content as they were lent, each untested. What they
// leave is what the effect asks: the settings that passed.
ghost use Rattle.checks.specs.Stages.{TestedIs, insert_tests, remove_tests, FittedIs};

use crate::room::check_room;
use crate::value::check_value;
use definition::{Refusal, Settings};
use reader::Table;
use slots::layout::Layout;
use walks::chain::check_chain;
use walks::free_list::check_free_refs;

// A replacement whose tests passed, and whether it has as many parts as the chain has, so that no slot is taken or freed.
#[derive(Clone, Copy)]
pub struct Fitted {
    pub layout: Layout,
    pub same: bool,
}

// The tests of insert, in order: 1, 2, 3, 4, 6, 11, 12.
pub fn check_insert(
    table: &[u8],
    s: Settings,
    key: &[u8],
    content: &[u8],
) -> Result<Layout, Refusal>
    ensures { TestedIs result s (insert_tests s key.now content.now table.now) }
{
    let table = Table::open(table, s)?;
    let need = check_value(table.layout, key, content)?;
    check_room(&table, need)?;
    Ok(table.layout)
}

// The tests of replace, in order: 1, 2, 3, 4, 6, 7, the head, the parts, 11, 12.
pub fn check_replace(
    table: &[u8],
    s: Settings,
    key: &[u8],
    content: &[u8],
    slot: u64,
) -> Result<Fitted, Refusal>
    ensures { FittedIs result s key.now content.now slot table.now }
{
    let table = Table::open(table, s)?;
    let need = check_value(table.layout, key, content)?;
    let chain = check_chain(&table, slot, None)?;
    check_room(&table, need.saturating_sub(chain.parts))?;
    Ok(Fitted {
        layout: table.layout,
        same: need == chain.parts,
    })
}

// The tests of remove, in order: 1, 2, 3, 7, the head, the parts, 11.
pub fn check_remove(table: &[u8], s: Settings, slot: u64) -> Result<Layout, Refusal>
    ensures { TestedIs result s (remove_tests s slot table.now) }
{
    let table = Table::open(table, s)?;
    check_chain(&table, slot, None)?;
    check_free_refs(table.bytes, table.layout, table.header)?;
    Ok(table.layout)
}
