// The kinds of records by name, with the numbers of docs/FORMAT.md, "Kinds".
pub const STATEMENTS: u8 = 1;

pub const DEF: u8 = 2;

pub const FOR: u8 = 3;

pub const IF: u8 = 4;

pub const IF_ELSE: u8 = 5;

pub const BREAK: u8 = 6;

pub const CONTINUE: u8 = 7;

pub const RETURN: u8 = 8;

pub const LOAD: u8 = 9;

pub const OTHER_SIMPLE: u8 = 10;

pub const ASSIGN: u8 = 11;

pub const ASSIGN_MODIFY: u8 = 12;

pub const TUPLE: u8 = 20;

pub const DOT: u8 = 21;

pub const CALL: u8 = 22;

pub const INDEX: u8 = 23;

pub const INDEX2: u8 = 24;

pub const SLICE: u8 = 25;

pub const IDENTIFIER: u8 = 26;

pub const LAMBDA: u8 = 27;

pub const STRING: u8 = 28;

pub const INT: u8 = 29;

pub const FLOAT: u8 = 30;

pub const ELLIPSIS: u8 = 31;

pub const BYTES: u8 = 32;

pub const NOT: u8 = 33;

pub const MINUS: u8 = 34;

pub const PLUS: u8 = 35;

pub const BIT_NOT: u8 = 36;

pub const OP: u8 = 37;

pub const IF_EXPR: u8 = 38;

pub const LIST: u8 = 39;

pub const DICT: u8 = 40;

pub const LIST_COMPREHENSION: u8 = 41;

pub const DICT_COMPREHENSION: u8 = 42;

pub const F_STRING: u8 = 43;

pub const NORMAL: u8 = 50;

pub const NO_ARGS: u8 = 51;

pub const SLASH: u8 = 52;

pub const ARGS_PARAM: u8 = 53;

pub const KW_ARGS_PARAM: u8 = 54;

pub const POSITIONAL: u8 = 60;

pub const NAMED: u8 = 61;

pub const ARGS_ARG: u8 = 62;

pub const KW_ARGS_ARG: u8 = 63;
