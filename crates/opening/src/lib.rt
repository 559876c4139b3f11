// No code: W-209 as theorems about the module pass and its job. specs/Opening.antt defines when a dialect permits all
// that another does and which errors that removes; proofs/Theorems.antt has the theorems.
#![tactic(auto)]
