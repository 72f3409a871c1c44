// What the settings say of every slot: the settings that passed their test, the header in slot 0, and the key in a prefix.
// One slot read and written is left to reader and writer, several to walks and writes.
#![tactic(auto)]

pub mod header;
pub mod keys;
pub mod layout;
