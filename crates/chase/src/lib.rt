// The mathematics of the decision: definitions in specs/, theorems in proofs/. There is no code here.
#![tactic(auto)]
