// Theorems only: demand 3, of any records offered to a fresh ledger, and what request b of document 02 adds to it. The page is
// specs/Promise.antt, over the definitions that the contracts of the lower crates cite.
#![tactic(auto)]
