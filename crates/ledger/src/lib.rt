// Theorems over the definition: from any sound table, any sequence of calls keeps it sound and answers as a plain ledger does.
// There is no code here: see proofs/.
#![tactic(auto)]
