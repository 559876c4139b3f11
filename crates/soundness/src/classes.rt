// The classes of kinds: the four groups of docs/FORMAT.md, "Kinds".
pub const STATEMENT: u8 = 1;

pub const EXPRESSION: u8 = 2;

pub const PARAMETER: u8 = 3;

pub const ARGUMENT: u8 = 4;
