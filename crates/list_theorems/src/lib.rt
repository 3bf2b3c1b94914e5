// What a granted list is like, by theorems in proofs/: its types are well formed, it has no more codes than the sum and
// no more than 129 levels, and entry k follows from the facts at and below word k. There is no code here.

#![tactic(auto)]
