// The numbers that jobs give, by name. docs/RULES.md explains each.
pub const TABLE_LENGTH: u32 = 1; // the table has no, too many or broken records

pub const NAME_BYTES: u32 = 2; // too many name bytes

pub const UNSOUND_RECORD: u32 = 3; // the first unsound record

pub const TOO_DEEP: u32 = 4; // the first node that is too deep

pub const BAD_DIALECT: u32 = 5; // no dialect, or no edition

pub const WRONG_NODE: u32 = 6; // no node, or one of the wrong kind

pub const SHORT_BUFFER: u32 = 7; // a lent buffer too short

pub const SLASH_FIRST: u32 = 10; // `/` is first

pub const DUPLICATED_PARAMETER: u32 = 11; // duplicated parameter name

pub const NORMAL_AFTER_KWARGS: u32 = 12; // Normal after `**kwargs`

pub const NO_DEFAULT_AFTER_DEFAULT: u32 = 13; // no default after a default, before any star

pub const STAR_AFTER_STAR: u32 = 14; // `*` or `*args` after a star or `**kwargs`

pub const MULTIPLE_SLASH: u32 = 15; // multiple `/`

pub const MULTIPLE_KWARGS: u32 = 16; // multiple kwargs

pub const STAR_LAST: u32 = 17; // `*` last

pub const NO_NORMAL_AFTER_STAR: u32 = 18; // the entry after `*` is no Normal

pub const TOO_MANY_PARAMETERS: u32 = 19; // more parameters than a list may have

pub const POSITIONAL_AFTER_NON_POSITIONAL: u32 = 20; // positional after non positional

pub const NAMED_AFTER_STAR: u32 = 21; // named after star or `**`

pub const REPEATED_NAMED: u32 = 22; // repeated named argument

pub const SECOND_STAR: u32 = 23; // second star, or star after `**`

pub const SECOND_KWARGS: u32 = 24; // second `**`

pub const INVALID_LHS: u32 = 30; // InvalidLhs

pub const INVALID_MODIFY_LHS: u32 = 31; // InvalidModifyLhs

pub const TYPE_ON_AUGMENTED: u32 = 32; // type on augmented

pub const TYPE_ON_TUPLE: u32 = 33; // type on tuple

pub const INVALID_TYPE: u32 = 40; // InvalidType

pub const EMPTY_LIST_IN_TYPE: u32 = 41; // EmptyListInType

pub const DOT_IN_TYPE: u32 = 42; // DotInType

pub const EXPECTING_PATH: u32 = 43; // ExpectingPath

pub const DOT_TYPE_BAN: u32 = 44; // DotTypeBan

pub const TYPES_DISABLED: u32 = 45; // types disabled in the dialect

pub const STAR_NOT_PERMITTED: u32 = 50; // `*` not in this dialect

pub const SLASH_NOT_PERMITTED: u32 = 51; // `/` not in this dialect

pub const DEF_NOT_PERMITTED: u32 = 52; // def

pub const TOP_LEVEL_FOR: u32 = 53; // top-level for

pub const TOP_LEVEL_IF: u32 = 54; // top-level if

pub const BREAK_MISPLACED: u32 = 55; // break misplaced

pub const CONTINUE_MISPLACED: u32 = 56; // continue misplaced

pub const RETURN_MISPLACED: u32 = 57; // return misplaced

pub const LOAD_NOT_AT_TOP: u32 = 58; // load not at top

pub const LOAD_NOT_PERMITTED: u32 = 59; // load not in this dialect

pub const ELLIPSIS_NOT_PERMITTED: u32 = 60; // `...` with types disabled

pub const LAMBDA_NOT_PERMITTED: u32 = 61; // lambda

pub const F_STRINGS_DISABLED: u32 = 62; // f-strings disabled in the dialect: a notice, no refusal

pub const STRAY_BRACE: u32 = 63; // a brace of a format text that starts none of the four forms

pub const BROKEN_PART: u32 = 64; // a broken part of a format text, or lengths that do not add up to the text bytes

pub const BLOCK_SHORT: u32 = 70; // short block

pub const BLOCK_NUMBER: u32 = 71; // block number

pub const BLOCK_CHECK: u32 = 72; // block check

pub const BLOCK_USED: u32 = 73; // used bytes or padding

pub const BLOCK_COUNTS: u32 = 74; // counts beyond the limits, or no node

pub const BYTES_LEFT_OVER: u32 = 75; // bytes left over

pub const TOO_MANY_FILES: u32 = 76; // a file after 4,294,967,295 files of one input

pub const STAR_ARGUMENT: u32 = 80; // a star or `**` argument of a call that is bound

pub const TOO_MANY_POSITIONAL: u32 = 81; // a positional argument too many, without `*args`

pub const UNKNOWN_NAMED: u32 = 82; // a named argument that no parameter takes, without `**kwargs`

pub const ALREADY_FILLED: u32 = 83; // a named argument for a parameter that is filled already

pub const EMPTY_PARAMETER: u32 = 84; // an ordinary parameter left empty, without default

pub const BAD_HEADER: u32 = 90; // block 0 or a name block of a file to be rescued is bad

pub const NOTHING_KEPT: u32 = 91; // the blocks of such a file do not pass, and no child of the root can be kept

pub const BOOK_UNSOUND: u32 = 95; // an unsound length, block or entry of a book, or an unsound entry to be added

pub const ENTRY_TWICE: u32 = 96; // the same zone and setting twice in a book, or added again

pub const NO_ENTRY: u32 = 97; // no fitting entry in either book, or none to remove

pub const NO_EMPTY_PLACE: u32 = 98; // no empty place for the entry to be added
