// The dialect of a module: which language features are permitted. A dialect has a name, or is read from the nine bytes
// of a table file. Also the editions of the type rules (W-212), which are read from a number.
//
// Ported from src/dialect.rs of starlark_syntax 0.14.2, and changed: the named dialects are rows of numbers, and bytes
// are read.
// Copyright 2018 The Starlark in Rust Authors. Copyright (c) Facebook, Inc. and its affiliates.
// Licensed under Apache-2.0.
#![tactic(auto)]

ghost use Rattle.std.specs.Prelude.{◌≡◌, length};
ghost use Rattle.dialect.specs.Rows.{row_named, types_of, permits_types, record_of, dialect_named};
ghost use Rattle.dialect.specs.Bytes.{valid_bytes, from_bytes};
ghost use Rattle.dialect.specs.Editions.{edition_of, stated_bytes, edition_held};

// How type annotations are handled.
#[derive(Clone, Copy)]
pub enum DialectTypes {
    Disable,
    ParseOnly,
    Enable,
}

// The language features that are permitted.
#[derive(Clone, Copy)]
pub struct Dialect {
    pub enable_def: bool,
    pub enable_lambda: bool,
    pub enable_load: bool,
    pub enable_keyword_only_arguments: bool,
    pub enable_positional_only_arguments: bool,
    pub enable_types: DialectTypes,
    pub enable_load_reexport: bool,
    pub enable_top_level_stmt: bool,
    pub enable_f_strings: bool,
}

// The dialects that have a name.
#[derive(Clone, Copy)]
pub enum Name {
    Standard,
    Extended,
    AllOptionsInternal,
}

// The editions of the type rules. The second allows a path that ends in `type`; the first bans it.
#[derive(Clone, Copy)]
pub enum Edition {
    One,
    Two,
}

// A row for each name, in the order of Name: nine numbers in the order of the fields of Dialect.
const DIALECTS: [[u8; 9]; 3] = [
    [1, 1, 1, 0, 0, 0, 1, 0, 0],
    [1, 1, 1, 1, 0, 2, 1, 1, 0],
    [1, 1, 1, 1, 1, 2, 1, 1, 1],
];

// The dialect of a table that gives none.
const NONE_GIVEN: Name = Name::Extended;

// The dialect of a name.
pub fn named(name: Name) -> Dialect
    ensures { result ≡ dialect_named name }
{
    let row = row_named(name);
    record_of(&row)
}

// Reads a dialect from nine bytes in the order of the fields of Dialect. No bytes give NONE_GIVEN.
pub fn from_bytes(bytes: &[u8]) -> Option<Dialect>
    ensures { result ≡ from_bytes bytes.now }
{
    if bytes.len() == 0 {
        return Some(named(NONE_GIVEN));
    }
    if valid_bytes(bytes) {
        return Some(record_of(bytes));
    }
    None
}

// Whether a dialect with this enable_types permits type annotations at all.
pub fn permits_types(types: DialectTypes) -> bool
    ensures { result ≡ permits_types types }
{
    match types {
        DialectTypes::Disable => false,
        DialectTypes::ParseOnly => true,
        DialectTypes::Enable => true,
    }
}

// The edition of a number: 1 and 2 are editions.
pub fn edition_of(number: u32) -> Option<Edition>
    ensures { result ≡ edition_of number }
{
    if number == 1 {
        return Some(Edition::One);
    }
    if number == 2 {
        return Some(Edition::Two);
    }
    None // no other number is an edition
}

// The edition of a file with these dialect bytes: the first if it states none. An edition that is stated needs dialect
// bytes before it.
pub fn edition_held(bytes: &[u8], stated: Option<u32>) -> Option<Edition>
    ensures { result ≡ edition_held bytes.now (stated_bytes stated) }
{
    match stated {
        Some(number) => {
            if bytes.len() == 0 {
                return None;
            }
            edition_of(number)
        }
        None => Some(Edition::One),
    }
}

// The row of a name.
fn row_named(name: Name) -> [u8; 9]
    ensures { result ≡ row_named name }
{
    match name {
        Name::Standard => DIALECTS[0],
        Name::Extended => DIALECTS[1],
        Name::AllOptionsInternal => DIALECTS[2],
    }
}

// The record that has the nine numbers of a row.
fn record_of(row: &[u8]) -> Dialect
    requires { length row.now ≡ 9 }
    ensures { result ≡ record_of row.now }
{
    Dialect {
        enable_def: row[0] == 1,
        enable_lambda: row[1] == 1,
        enable_load: row[2] == 1,
        enable_keyword_only_arguments: row[3] == 1,
        enable_positional_only_arguments: row[4] == 1,
        enable_types: types_of(row[5]),
        enable_load_reexport: row[6] == 1,
        enable_top_level_stmt: row[7] == 1,
        enable_f_strings: row[8] == 1,
    }
}

// The meaning of a number of enable_types.
fn types_of(number: u8) -> DialectTypes
    ensures { result ≡ types_of number }
{
    if number == 0 {
        return DialectTypes::Disable;
    }
    if number == 1 {
        return DialectTypes::ParseOnly;
    }
    DialectTypes::Enable
}

// Whether bytes are the nine numbers of a dialect. The empty list is not, though `from_bytes` gives a dialect for it.
pub fn valid_bytes(bytes: &[u8]) -> bool
    ensures { result ≡ valid_bytes bytes.now }
{
    if bytes.len() != 9 {
        return false;
    }
    (bytes[0] <= 1)
        & (bytes[1] <= 1)
        & (bytes[2] <= 1)
        & (bytes[3] <= 1)
        & (bytes[4] <= 1)
        & (bytes[5] <= 2)
        & (bytes[6] <= 1)
        & (bytes[7] <= 1)
        & (bytes[8] <= 1)
}
