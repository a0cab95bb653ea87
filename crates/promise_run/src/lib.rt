// Theorems only: the count, the ledger and the output of a whole run are those of its records taken one after another, and no other
// answer is. The page is specs/Promise.antt.
#![tactic(auto)]
