// Whole lists of calls: proofs/ has demand 3, over the contracts of the fresh call, the step and the closing. There is
// no code here.

#![tactic(auto)]
