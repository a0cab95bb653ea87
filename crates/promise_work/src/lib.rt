// Theorems only: the decay work that a run answers is the count over its accepted records, at most 7 a record and 8400 in a run, and
// goes by masses and ledger alone. The page is specs/Promise.antt.
#![tactic(auto)]
