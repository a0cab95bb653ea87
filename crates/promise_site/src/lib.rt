// Theorems only: demand 3 over the entries that C calls, of a site that is kept in an image from call to call. The page is
// specs/Promise.antt.
#![tactic(auto)]
