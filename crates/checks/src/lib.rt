// The checks of the calls, a stage each. They take the table as `&[u8]`, or as a `Table` that is open, so that a refused call has nothing to
// write with. Here the key's (4).
#![tactic(auto)]

pub mod room;
pub mod value;
pub mod writing;

ghost use Rattle.std.specs.Prelude.{◌≡◌, ◌&&◌, not, eqb, length};
ghost use Rattle.definition.specs.Settings.{hash_bytes};
ghost use Rattle.definition.specs.Tests.{refuse};
ghost use Rattle.definition.specs.Calls.{checked_key_test};
ghost use Rattle.slots.specs.Keys.{lent_key};

use definition::{KEY_SIZE, Settings};

// Test 4: a keyed table, and a key that is not 32 bytes long.
pub fn key_bad(s: Settings, key: &[u8]) -> bool
    ensures { result ≡ (s.keyed && not (eqb (length key.now) hash_bytes)) }
{
    s.keyed && key.len() != KEY_SIZE
}

// Test 4 of a read, which may check a key or not.
#[tactic(auto, unfolding(definition::specs::Calls::checked_key_test, definition::specs::Calls::key_test, definition::specs::Tests::refuse))]
pub fn checked_key_bad(s: Settings, key: Option<&[u8]>) -> bool
    ensures { refuse 4 result ≡ checked_key_test s (lent_key key.entry) }
{
    match key {
        Some(key) => key_bad(s, key),
        None => false,
    }
}
