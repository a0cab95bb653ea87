// Theorems only: what request d of document 02, 'Work out the correction factor from uncertainties', claims. The page is
// specs/Promise.antt.
#![tactic(auto)]
