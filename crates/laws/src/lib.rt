// Laws of the definition that the code's proofs and the theorems both cite. There is no code here: see proofs/.
#![tactic(auto)]
