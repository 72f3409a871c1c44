// One slot read: marks, sizes, links and counts, which ask no more bytes than they read; the parse of a whole slot as a head or a later
// part; and a table that passed tests 1, 2 and 3.
#![tactic(auto)]

pub mod bytes;
pub mod slot;
pub mod table;

pub use bytes::{
    is_compressed_head, is_continuation, is_free, is_head, part_size, read_compressed, read_count,
    read_head_next, read_next, read_total, starts_chain,
};
pub use slot::Slot;
pub use table::Table;
