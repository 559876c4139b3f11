// No code: W-204 in the user's words, as theorems about the binding job. specs/Said.antt defines the words of its
// sentences, proofs/Reached.antt states the sentences one by one.
#![tactic(auto)]
