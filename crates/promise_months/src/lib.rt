// Theorems only: what request c of document 02, 'Months of one year share the year's factors', claims. The page is specs/Promise.antt.
#![tactic(auto)]
