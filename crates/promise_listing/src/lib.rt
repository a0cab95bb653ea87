// Theorems only: an accepted record's output record has the record's own period, kind and climate, its line has the period, and the
// listing of a file is that of its run. The page is specs/Promise.antt.
#![tactic(auto)]
