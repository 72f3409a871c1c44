// The calls of the station as C functions: `./library` writes them as target/staticlib/libstation.a, and include/pyltarka.h declares them.
// Each is the function of the crate station of its name, under the same contract and in the same form, C's: a library that other crates stand
// on exports nothing.
// A slice is a pointer and a length; a null pointer with length 0 is an empty one.
#![tactic(auto)]

ghost use Rattle.std.specs.Prelude.{◌≡◌};
ghost use Rattle.definition.specs.Calls.{insert, replace, remove, change, checked_key, read, find_fixed, free_count};
ghost use Rattle.station.specs.Forms.{settings_of, number_in, inserted_in, changed_in, record_in, part_in, counted_in};

use station::{
    PyltarkaChanged, PyltarkaCounted, PyltarkaInserted, PyltarkaPart, PyltarkaRecord,
    PyltarkaSettings,
};

// Stores a record under a key with its content and compressed mark; answers the slot of its head.
#[unsafe(no_mangle)]
pub extern "C" fn pyltarka_insert(
    table: &mut [u8],
    s: PyltarkaSettings,
    key: &[u8],
    content: &[u8],
    mark: bool,
) -> PyltarkaInserted
    ensures { (result ≡ inserted_in (insert (settings_of s) key.now content.now mark table.old).0)
        × (table.new ≡ (insert (settings_of s) key.now content.now mark table.old).1) }
{
    station::pyltarka_insert(table, s, key, content, mark)
}

// Replaces the record whose head is in the slot: key, content and mark anew, the count 1 again.
#[unsafe(no_mangle)]
pub extern "C" fn pyltarka_replace(
    table: &mut [u8],
    s: PyltarkaSettings,
    slot: u64,
    key: &[u8],
    content: &[u8],
    mark: bool,
) -> u32
    ensures { (result ≡ number_in (replace (settings_of s) key.now content.now mark slot table.old).0)
        × (table.new ≡ (replace (settings_of s) key.now content.now mark slot table.old).1) }
{
    station::pyltarka_replace(table, s, slot, key, content, mark)
}

// Removes the record whose head is in the slot.
#[unsafe(no_mangle)]
pub extern "C" fn pyltarka_remove(table: &mut [u8], s: PyltarkaSettings, slot: u64) -> u32
    ensures { (result ≡ number_in (remove (settings_of s) slot table.old).0)
        × (table.new ≡ (remove (settings_of s) slot table.old).1) }
{
    station::pyltarka_remove(table, s, slot)
}

// Changes the count of the record in a slot by a signed step; answers the stored count, or that this was the last reference.
#[unsafe(no_mangle)]
pub extern "C" fn pyltarka_change_count(
    table: &mut [u8],
    s: PyltarkaSettings,
    slot: u64,
    step: i32,
) -> PyltarkaChanged
    ensures { (result ≡ changed_in (change (settings_of s) step slot table.old).0)
        × (table.new ≡ (change (settings_of s) step slot table.old).1) }
{
    station::pyltarka_change_count(table, s, slot, step)
}

// The copying read: the content into the front of the output, whose bytes past it stay. With a key checked, or without.
#[unsafe(no_mangle)]
pub extern "C" fn pyltarka_read(
    table: &[u8],
    s: PyltarkaSettings,
    slot: u64,
    checked: bool,
    key: &[u8],
    output: &mut [u8],
) -> PyltarkaRecord
    ensures { (result ≡ record_in (read (settings_of s) (checked_key checked key.now) slot table.now output.old).0)
        × (output.new ≡ (read (settings_of s) (checked_key checked key.now) slot table.now output.old).1) }
{
    station::pyltarka_read(table, s, slot, checked, key, output)
}

// The fixed read: where in the table the content starts, and what its companion tells. On a multipart table it gives 1.
#[unsafe(no_mangle)]
pub extern "C" fn pyltarka_read_fixed(
    table: &[u8],
    s: PyltarkaSettings,
    slot: u64,
    checked: bool,
    key: &[u8],
) -> PyltarkaPart
    ensures { result ≡ part_in (settings_of s) slot (find_fixed (settings_of s) (checked_key checked key.now) slot table.now) }
{
    station::pyltarka_read_fixed(table, s, slot, checked, key)
}

// The members of the free list.
#[unsafe(no_mangle)]
pub extern "C" fn pyltarka_free_count(table: &[u8], s: PyltarkaSettings) -> PyltarkaCounted
    ensures { result ≡ counted_in (free_count (settings_of s) table.now) }
{
    station::pyltarka_free_count(table, s)
}
