// The bench readings of document 01: specs/ has them in one table, over the definitions, and proofs/ shows it. There is
// no code here.

#![tactic(auto)]
