// The calls of the station, as document 01 has them: each for any table, settings, key, slot, step and buffer, with nothing asked of
// the caller. So table and settings, and key, content and mark, are parameters of their own, as C lends them. A refused call changes no
// byte. The checks come first, in 01's order; from the first store on nothing can refuse.
#![tactic(auto)]

mod counting;
mod reading;
mod writing;

pub use counting::{change_count, free_count};
pub use reading::{find_fixed, read, read_fixed};
pub use writing::{insert, remove, replace};
