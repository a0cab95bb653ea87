// Theorems only: what request a of document 02, 'Masses from sorting samples', claims. The page is specs/Promise.antt.
#![tactic(auto)]
