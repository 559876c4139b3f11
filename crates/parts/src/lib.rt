// No code: why a script may be checked in several tables, as theorems about the module pass and the audit.
// specs/Parts.antt defines what a part keeps of the whole; proofs/Theorems.antt has the theorems.
#![tactic(auto)]
