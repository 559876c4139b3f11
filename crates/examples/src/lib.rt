// No code: a table of worked examples of the rules (docs/RULES.md). specs/Table.antt is the table; proofs/Examples.antt
// has the one theorem about all its rows.
#![tactic(auto)]
