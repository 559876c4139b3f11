// No code: W-209 about the audit, as theorems over the crate `opening`. proofs/Theorems.antt has the theorems.
#![tactic(auto)]
