// Theorems on request j of document 02: a column-by-column calculation. specs/ has what is promised, proofs/ why it holds.
#![tactic(auto)]
