// No code: theorems about the crate books that follow W-213 sentence by sentence. specs/Said.antt defines the words,
// proofs/Lookups.antt has the sentences on lookups, and proofs/Booked.antt those on additions and removals.
#![tactic(auto)]
