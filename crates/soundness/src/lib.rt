// Soundness of a node table: the kinds of records, the rule of a record with its children, and the first record that
// breaks it.
#![tactic(auto)]

pub mod classes;
pub mod kinds;
mod rows;
mod sound;

ghost use Rattle.std.specs.Prelude.{◌≡◌};
ghost use Rattle.soundness.specs.Kinds.{class_of};
ghost use Rattle.soundness.specs.Sound.{first_unsound, unsound_in};

// The class of a kind, a number of `classes`; 0 for a number that is no kind.
pub fn class(kind: u8) -> u8
    ensures { result ≡ class_of kind }
{
    rows::class(kind)
}

// The first unsound record in index order.
pub fn first_unsound(table: &[u8], names: &[u8]) -> Option<usize>
    ensures { result ≡ first_unsound table.now names.now }
{
    sound::first_unsound(table, names)
}

// The first unsound record of a top-level statement, in a table that has `names` name bytes. Unlike `first_unsound` it
// does not require that the first record is a statement and covers the bytes.
pub fn first_unsound_in(statement: &[u8], names: usize) -> Option<usize>
    ensures { result ≡ unsound_in names statement.now }
{
    sound::first_unsound_in(statement, names)
}
