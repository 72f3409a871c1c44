// What the calls of the table and the C functions promise, said of the code through its contracts: one call, any sequence of calls, and that
// no contract admits two outcomes.
// There is no code here: see proofs/.
#![tactic(auto)]
