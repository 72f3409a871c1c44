// Walks over several slots: the free list, and the parts of a chain. Nothing here writes a table.
#![tactic(auto)]

pub mod chain;
pub mod free_list;

// How far a chain reaches: its parts, and the bytes of prefix and content that they hold.
#[derive(Clone, Copy, Debug, PartialEq, Eq)]
pub struct Extent {
    pub parts: u64,
    pub bytes: usize,
}
