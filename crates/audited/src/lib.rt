// No code: theorems that say when the list of the audit is empty, in terms of all jobs. specs/Said.antt defines the
// words of the sentence; proofs/Audited.antt has the sentence, part by part.
#![tactic(auto)]
