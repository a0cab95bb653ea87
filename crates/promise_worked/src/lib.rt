// Theorems only: the worked figures P1 to P10 of document 01. The page is specs/Promise.antt.
#![tactic(auto)]
