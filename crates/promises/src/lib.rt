// Theorems only: the page that lists every promise. Each is a crate of its own, promise_NAME, on the crates that it needs alone; a new
// one adds its crate and a field of `Promises`.
#![tactic(auto)]
