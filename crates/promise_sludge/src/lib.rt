// Theorems only: what request f of document 02, 'Sludge with a measured dry matter', claims. The page is specs/Promise.antt.
#![tactic(auto)]
