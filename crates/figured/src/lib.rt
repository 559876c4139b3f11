// No code: theorems about reports and steps that follow W-214 sentence by sentence. specs/Said.antt defines the words.
#![tactic(auto)]
