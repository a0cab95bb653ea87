// Theorems only: what request g of document 02, 'Put the shuffled files right', claims. The page is specs/Promise.antt.
#![tactic(auto)]
