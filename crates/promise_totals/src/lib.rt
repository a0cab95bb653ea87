// Theorems on request l of document 02: yearly totals beside a monthly run. specs/ has what is promised, proofs/ why it holds.
#![tactic(auto)]
