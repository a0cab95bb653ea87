// Theorems only: each public function has one answer, and one content of each lent buffer.
// proofs/OneAnswer/ has a file for each crate.
#![tactic(auto)]
