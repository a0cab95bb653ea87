// Theorems on request i of document 02: the Tunisian reference method. specs/ has what is promised, proofs/ why it holds.
#![tactic(auto)]
