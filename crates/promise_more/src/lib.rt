// Theorems on request k of document 02: more waste never shows less gas. specs/ has what is promised, proofs/ why it holds.
#![tactic(auto)]
