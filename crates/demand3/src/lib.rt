// No code: demand 3 as theorems about the parameters job. specs/Cut.antt defines a cut, proofs/Demand3.antt states the
// theorems.
#![tactic(auto)]
