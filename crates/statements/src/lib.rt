// No code: every theorem that the documents name, stated again by hand, with every hypothesis written out. Each
// statement is proved by citing the theorem. docs/STATEMENTS.md is this crate as a page.
#![tactic(auto)]
