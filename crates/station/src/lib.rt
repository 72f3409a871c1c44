// The calls of the station for C and whatever links C, which include/pyltarka.h declares: each is a call of `table` under its whole
// contract, its settings and its answer in C's form: C has no Option and no Result, hence a flag beside the key, a number that is 0 or the
// refusal, and a struct for each answer. The crate station_c exports them.
#![tactic(auto)]

mod answers;

ghost use Rattle.std.specs.Prelude.{◌≡◌};
ghost use Rattle.definition.specs.Calls.{insert, replace, remove, change, checked_key, read, find_fixed, free_count};
ghost use Rattle.station.specs.Forms.{settings_of, number_in, inserted_in, changed_in, record_in, part_in, counted_in};

use crate::answers::{key_if, number_in};
pub use answers::{
    PyltarkaChanged, PyltarkaCounted, PyltarkaInserted, PyltarkaPart, PyltarkaRecord,
    PyltarkaSettings,
};
use definition::Settings;

// Stores a record under a key with its content and compressed mark; answers the slot of its head.
pub fn pyltarka_insert(
    table: &mut [u8],
    s: PyltarkaSettings,
    key: &[u8],
    content: &[u8],
    mark: bool,
) -> PyltarkaInserted
    ensures { (result ≡ inserted_in (insert (settings_of s) key.now content.now mark table.old).0)
        × (table.new ≡ (insert (settings_of s) key.now content.now mark table.old).1) }
{
    table::insert(table, s.into(), key, content, mark).into()
}

// Replaces the record whose head is in the slot: key, content and mark anew, the count 1 again.
pub fn pyltarka_replace(
    table: &mut [u8],
    s: PyltarkaSettings,
    slot: u64,
    key: &[u8],
    content: &[u8],
    mark: bool,
) -> u32
    ensures { (result ≡ number_in (replace (settings_of s) key.now content.now mark slot table.old).0)
        × (table.new ≡ (replace (settings_of s) key.now content.now mark slot table.old).1) }
{
    number_in(table::replace(table, s.into(), slot, key, content, mark))
}

// Removes the record whose head is in the slot.
pub fn pyltarka_remove(table: &mut [u8], s: PyltarkaSettings, slot: u64) -> u32
    ensures { (result ≡ number_in (remove (settings_of s) slot table.old).0)
        × (table.new ≡ (remove (settings_of s) slot table.old).1) }
{
    number_in(table::remove(table, s.into(), slot))
}

// Changes the count of the record in a slot by a signed step; answers the stored count, or that this was the last reference.
pub fn pyltarka_change_count(
    table: &mut [u8],
    s: PyltarkaSettings,
    slot: u64,
    step: i32,
) -> PyltarkaChanged
    ensures { (result ≡ changed_in (change (settings_of s) step slot table.old).0)
        × (table.new ≡ (change (settings_of s) step slot table.old).1) }
{
    table::change_count(table, s.into(), slot, step).into()
}

// The copying read: the content into the front of the output, whose bytes past it stay. With a key checked, or without.
pub fn pyltarka_read(
    table: &[u8],
    s: PyltarkaSettings,
    slot: u64,
    checked: bool,
    key: &[u8],
    output: &mut [u8],
) -> PyltarkaRecord
    ensures { (result ≡ record_in (read (settings_of s) (checked_key checked key.now) slot table.now output.old).0)
        × (output.new ≡ (read (settings_of s) (checked_key checked key.now) slot table.now output.old).1) }
{
    table::read(table, s.into(), slot, key_if(checked, key), output).into()
}

// The fixed read: where in the table the content starts, and what its companion tells. On a multipart table it gives 1. No From makes its
// struct: where the content starts is not in the answer of the call.
pub fn pyltarka_read_fixed(
    table: &[u8],
    s: PyltarkaSettings,
    slot: u64,
    checked: bool,
    key: &[u8],
) -> PyltarkaPart
    ensures { result ≡ part_in (settings_of s) slot (find_fixed (settings_of s) (checked_key checked key.now) slot table.now) }
{
    let own = Settings::from(s);
    match table::find_fixed(table, own, slot, key_if(checked, key)) {
        Ok(record) => PyltarkaPart {
            offset: own.content_start(slot) as u64,
            length: record.len,
            visits: record.visits,
            number: 0,
            count: record.count,
            mark: record.mark,
        },
        Err(refusal) => PyltarkaPart {
            number: refusal.number(),
            ..PyltarkaPart::default()
        },
    }
}

// The members of the free list.
pub fn pyltarka_free_count(table: &[u8], s: PyltarkaSettings) -> PyltarkaCounted
    ensures { result ≡ counted_in (free_count (settings_of s) table.now) }
{
    table::free_count(table, s.into()).into()
}
