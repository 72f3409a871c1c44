// Lines of words, for a program that does what its input says: a line cut into words and compared with forms, its words read as numbers
// and as bytes. It calls nothing of a table's, and no public function asks anything of its caller.
#![tactic(auto)]

pub mod forms;
pub mod values;
pub mod words;
