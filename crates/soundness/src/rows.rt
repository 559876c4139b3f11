// Each kind and each rule, packed into one number whose hexadecimal digits are its parts. A `match` that gives numbers
// is a table in the compiled code; an array would be built on the stack at each call. specs/Packed.antt defines how the
// digits are read, and it is proved arm by arm that they agree with specs/Kinds.antt.
ghost use Rattle.std.specs.Prelude.{◌≡◌, [], ◌≤◌, get_or};
ghost use Rattle.soundness.specs.Kinds.{exactly, kind_of, class_of};
ghost use Rattle.soundness.specs.Packed.{RowOf, rule_at, rule_of, children_of, fronts_in, front_in, times_in, middle_in};
ghost use Rattle.soundness.specs.Packed.{backs_in, back_in, rules_in, RangesOf};

// The parts of a row in its number: the power of 16 of the last digit of each.
const CLASS: u64 = 0x1000_0000_0000_0000;

const DETAILS: u64 = 0x100_0000_0000_0000;

const NAMED: u64 = 0x10_0000_0000_0000;

const RULE_0: u64 = 0x1000;

const RULE_1: u64 = 0x100;

const RULE_2: u64 = 0x10;

// One more than the largest rule.
const RULES: u64 = 0x100_0000_0000;

// The parts of a rule in its number.
const FRONTS: u64 = 0x10_0000_0000;

const FRONT_0: u64 = 0x1_0000_0000;

const FRONT_1: u64 = 0x1000_0000;

const FRONT_2: u64 = 0x100_0000;

const TIMES: u64 = 0x10_0000;

const MIDDLE: u64 = 0x1_0000;

const BACKS: u64 = 0x1000;

const BACK_0: u64 = 0x100;

const BACK_1: u64 = 0x10;

// The row of a kind: its class, its largest detail, whether it has a name, its rule at detail 0, and the numbers of its
// rules at the details 1, 2 and 3. A number that is no kind gives 0. A rule has the number of first children and the
// classes of up to three; the number in the middle (f any, e an even number, else that many at most) and their class;
// the number of last children and the classes of up to three.
fn row_of(kind: u8) -> u64
    ensures { RowOf kind result }
{
    match kind {
        1 => 0x1_0_0_0_000_f_1_0_000_0_0_0, // Statements
        2 => 0x1_1_0_0_000_f_3_1_100_4_0_0, // Def
        3 => 0x1_0_0_3_221_0_0_0_000_0_0_0, // For
        4 => 0x1_0_0_2_210_0_0_0_000_0_0_0, // If
        5 => 0x1_0_0_3_211_0_0_0_000_0_0_0, // IfElse
        6 => 0x1_0_0_0_000_0_0_0_000_0_0_0, // Break
        7 => 0x1_0_0_0_000_0_0_0_000_0_0_0, // Continue
        8 => 0x1_0_0_0_000_1_2_0_000_0_0_0, // Return
        9 => 0x1_0_0_0_000_0_0_0_000_0_0_0, // Load
        10 => 0x1_0_0_0_000_f_2_0_000_0_0_0, // OtherSimple
        11 => 0x1_1_0_2_220_0_0_0_000_3_0_0, // Assign
        12 => 0x1_1_0_2_220_0_0_0_000_3_0_0, // AssignModify
        20 => 0x2_0_0_0_000_f_2_0_000_0_0_0, // Tuple
        21 => 0x2_0_1_1_200_0_0_0_000_0_0_0, // Dot
        22 => 0x2_0_0_1_200_f_4_0_000_0_0_0, // Call
        23 => 0x2_0_0_2_220_0_0_0_000_0_0_0, // Index
        24 => 0x2_0_0_3_222_0_0_0_000_0_0_0, // Index2
        25 => 0x2_0_0_1_200_3_2_0_000_0_0_0, // Slice
        26 => 0x2_0_1_0_000_0_0_0_000_0_0_0, // Identifier
        27 => 0x2_0_0_0_000_f_3_1_200_0_0_0, // Lambda
        28 => 0x2_0_0_0_000_0_0_0_000_0_0_0, // String
        29 => 0x2_0_0_0_000_0_0_0_000_0_0_0, // Int
        30 => 0x2_0_0_0_000_0_0_0_000_0_0_0, // Float
        31 => 0x2_0_0_0_000_0_0_0_000_0_0_0, // Ellipsis
        32 => 0x2_0_0_0_000_0_0_0_000_0_0_0, // Bytes
        33 => 0x2_0_0_1_200_0_0_0_000_0_0_0, // Not
        34 => 0x2_0_0_1_200_0_0_0_000_0_0_0, // Minus
        35 => 0x2_0_0_1_200_0_0_0_000_0_0_0, // Plus
        36 => 0x2_0_0_1_200_0_0_0_000_0_0_0, // BitNot
        37 => 0x2_1_0_2_220_0_0_0_000_2_0_0, // Op
        38 => 0x2_0_0_3_222_0_0_0_000_0_0_0, // IfExpr
        39 => 0x2_0_0_0_000_f_2_0_000_0_0_0, // List
        40 => 0x2_0_0_0_000_e_2_0_000_0_0_0, // Dict
        41 => 0x2_0_0_1_200_f_2_0_000_0_0_0, // ListComprehension
        42 => 0x2_0_0_2_220_f_2_0_000_0_0_0, // DictComprehension
        43 => 0x2_0_0_0_000_f_2_0_000_0_0_0, // FString
        50 => 0x3_3_1_0_000_0_0_0_000_1_1_2, // Normal
        51 => 0x3_0_0_0_000_0_0_0_000_0_0_0, // NoArgs
        52 => 0x3_0_0_0_000_0_0_0_000_0_0_0, // Slash
        53 => 0x3_1_1_0_000_0_0_0_000_1_0_0, // ArgsParam
        54 => 0x3_1_1_0_000_0_0_0_000_1_0_0, // KwArgsParam
        60 => 0x4_0_0_1_200_0_0_0_000_0_0_0, // Positional
        61 => 0x4_0_1_1_200_0_0_0_000_0_0_0, // Named
        62 => 0x4_0_0_1_200_0_0_0_000_0_0_0, // ArgsArg
        63 => 0x4_0_0_1_200_0_0_0_000_0_0_0, // KwArgsArg
        _ => 0,
    }
}

// The class of a kind; 0 for a number that is no kind.
pub(crate) fn class(kind: u8) -> u8
    ensures { result ≡ class_of kind }
{
    (row_of(kind) / CLASS % 16) as u8
}

// The largest detail of a kind.
pub(crate) fn details(kind: u8) -> u8
    ensures { result ≡ (kind_of kind).details }
{
    (row_of(kind) / DETAILS % 4) as u8
}

// Whether a kind has a name.
pub(crate) fn named(kind: u8) -> bool
    ensures { result ≡ (kind_of kind).named }
{
    row_of(kind) / NAMED % 16 == 1
}

// The number of the rule of a row at a detail from 1 on.
fn rule_number(row: u64, detail: u8) -> u64
    requires { 1 ≤ detail }
    ensures { rule_at result ≡ get_or (rules_in row) detail (exactly []) }
{
    match detail {
        1 => row / RULE_1 % 16,
        2 => row / RULE_2 % 16,
        3 => row % 16,
        _ => 0,
    }
}

// A rule by its number.
fn rule_at(number: u64) -> u64
    ensures { children_of result ≡ rule_at number }
{
    match number {
        0 => 0x0_000_0_0_0_000, // nothing
        1 => 0x1_200_0_0_0_000, // one expression
        2 => 0x2_220_0_0_0_000, // two expressions
        3 => 0x3_222_0_0_0_000, // three expressions
        4 => 0x0_000_f_3_2_210, // parameters, an expression, a statement
        _ => 0,
    }
}

// The children that a kind permits at a detail. Most records have detail 0, whose rule is in the row itself.
pub(crate) fn rule_of(kind: u8, detail: u8) -> u64
    ensures { children_of result ≡ rule_of kind detail }
{
    let row = row_of(kind);
    if detail == 0 {
        return row / RULE_0 % RULES;
    }
    rule_at(rule_number(row, detail))
}

// The kinds that the children of a kind may have at detail 0, apart from its last children: 16 bits for each of the
// first three and for all others, the first lowest. In them the low byte is the least kind, the high byte the greatest.
// A place that no child may have gives 00ff, which no kind is in.
pub(crate) fn ranges_of(kind: u8) -> u64
    ensures { RangesOf kind result }
{
    match kind {
        1 => 0x0c01_0c01_0c01_0c01, // Statements
        2 => 0x3632_3632_3632_3632, // Def
        3 => 0x00ff_0c01_2b14_2b14, // For
        4 => 0x00ff_00ff_0c01_2b14, // If
        5 => 0x00ff_0c01_0c01_2b14, // IfElse
        6 => 0x00ff_00ff_00ff_00ff, // Break
        7 => 0x00ff_00ff_00ff_00ff, // Continue
        8 => 0x2b14_2b14_2b14_2b14, // Return
        9 => 0x00ff_00ff_00ff_00ff, // Load
        10 => 0x2b14_2b14_2b14_2b14, // OtherSimple
        11 => 0x00ff_00ff_2b14_2b14, // Assign
        12 => 0x00ff_00ff_2b14_2b14, // AssignModify
        20 => 0x2b14_2b14_2b14_2b14, // Tuple
        21 => 0x00ff_00ff_00ff_2b14, // Dot
        22 => 0x3f3c_3f3c_3f3c_2b14, // Call
        23 => 0x00ff_00ff_2b14_2b14, // Index
        24 => 0x00ff_2b14_2b14_2b14, // Index2
        25 => 0x2b14_2b14_2b14_2b14, // Slice
        26 => 0x00ff_00ff_00ff_00ff, // Identifier
        27 => 0x3632_3632_3632_3632, // Lambda
        28 => 0x00ff_00ff_00ff_00ff, // String
        29 => 0x00ff_00ff_00ff_00ff, // Int
        30 => 0x00ff_00ff_00ff_00ff, // Float
        31 => 0x00ff_00ff_00ff_00ff, // Ellipsis
        32 => 0x00ff_00ff_00ff_00ff, // Bytes
        33 => 0x00ff_00ff_00ff_2b14, // Not
        34 => 0x00ff_00ff_00ff_2b14, // Minus
        35 => 0x00ff_00ff_00ff_2b14, // Plus
        36 => 0x00ff_00ff_00ff_2b14, // BitNot
        37 => 0x00ff_00ff_2b14_2b14, // Op
        38 => 0x00ff_2b14_2b14_2b14, // IfExpr
        39 => 0x2b14_2b14_2b14_2b14, // List
        40 => 0x2b14_2b14_2b14_2b14, // Dict
        41 => 0x2b14_2b14_2b14_2b14, // ListComprehension
        42 => 0x2b14_2b14_2b14_2b14, // DictComprehension
        43 => 0x2b14_2b14_2b14_2b14, // FString
        50 => 0x00ff_00ff_00ff_00ff, // Normal
        51 => 0x00ff_00ff_00ff_00ff, // NoArgs
        52 => 0x00ff_00ff_00ff_00ff, // Slash
        53 => 0x00ff_00ff_00ff_00ff, // ArgsParam
        54 => 0x00ff_00ff_00ff_00ff, // KwArgsParam
        60 => 0x00ff_00ff_00ff_2b14, // Positional
        61 => 0x00ff_00ff_00ff_2b14, // Named
        62 => 0x00ff_00ff_00ff_2b14, // ArgsArg
        63 => 0x00ff_00ff_00ff_2b14, // KwArgsArg
        _ => 0x00ff_00ff_00ff_00ff,
    }
}

// The number of first children.
pub(crate) fn fronts(rule: u64) -> usize
    ensures { result ≡ fronts_in rule }
{
    (rule / FRONTS % 4) as usize
}

// The class of child j among the first.
pub(crate) fn front(rule: u64, j: usize) -> u8
    ensures { result ≡ get_or (front_in rule) j 0 }
{
    match j {
        0 => (rule / FRONT_0 % 16) as u8,
        1 => (rule / FRONT_1 % 16) as u8,
        2 => (rule / FRONT_2 % 16) as u8,
        _ => 0,
    }
}

// The number of children between the first and the last: 15 any, 14 an even number, else that many at most.
pub(crate) fn times(rule: u64) -> u8
    ensures { result ≡ times_in rule }
{
    (rule / TIMES % 16) as u8
}

// The class of the children in the middle.
pub(crate) fn middle(rule: u64) -> u8
    ensures { result ≡ middle_in rule }
{
    (rule / MIDDLE % 16) as u8
}

// The number of last children.
pub(crate) fn backs(rule: u64) -> usize
    ensures { result ≡ backs_in rule }
{
    (rule / BACKS % 4) as usize
}

// The class of child k of the last children.
pub(crate) fn back(rule: u64, k: usize) -> u8
    ensures { result ≡ get_or (back_in rule) k 0 }
{
    match k {
        0 => (rule / BACK_0 % 16) as u8,
        1 => (rule / BACK_1 % 16) as u8,
        2 => (rule % 16) as u8,
        _ => 0,
    }
}
