// The zone book and the line book: the dialect of a zone and a setting. A book is 1 to 100 blocks of 512 bytes with
// 21 places of 24 bytes each (docs/FORMAT.md, Books). The setting edition has nothing to do with the edition of the
// type rules.
#![tactic(auto)]

mod change;
mod places;
mod search;

ghost use Rattle.std.specs.Prelude.{◌≡◌, length};
ghost use Rattle.books.specs.Book.{judge_book};
ghost use Rattle.books.specs.Lookup.{lookup_of, part_of};
ghost use Rattle.books.specs.Change.{add_of, zone_added, line_added, remove_of, zone_removed, line_removed};
ghost use Rattle.books.specs.Change.{blank_of, blank_after};

use blocks::BLOCK_BYTES;
use table::numbers;

// The answer of a lookup: the position of the nine bytes in the zone book or in the line book; 95 or 96 with the number
// of the book (0 the zone book, 1 the line book); or 97 (no entry fits).
#[derive(Clone, Copy)]
pub enum Looked {
    Zone(usize),
    Line(usize),
    Refused(u32, u32),
    Nothing,
}

// The answer of an addition or a removal: the number of the book (0 the zone book, 1 the line book) and the place,
// counted from 0; 95 or 96 with the number of the book; 97 or 98.
#[derive(Clone, Copy)]
pub enum Changed {
    Placed(u32, usize),
    Refused(u32, u32),
    Bare(u32),
}

// Returns the nine dialect bytes from the zone book or, if none of its entries fits, from the line book. If the lookup
// is refused the part is empty. Do not use it as dialect bytes then: no dialect bytes mean Extended.
pub fn lookup<'a>(zone_book: &'a [u8], line_book: &'a [u8], zone: u32, setting: u32) -> &'a [u8]
    ensures { result.now
        ≡ part_of (lookup_of zone_book.now line_book.now zone setting)
        zone_book.now line_book.now }
{
    let answer = judge_lookup(zone_book, line_book, zone, setting);
    match answer {
        Looked::Zone(at) => places::piece(zone_book, at, 9),
        Looked::Line(at) => places::piece(line_book, at, 9),
        Looked::Refused(_, _) => &line_book[0..0],
        Looked::Nothing => &line_book[0..0],
    }
}

// Looks up a zone and a setting. Refuses, in this order, with 95 (unsound: zone book, then line book), 96 (repeated
// entry: zone book, then line book) or 97 (no entry fits); else gives the book and the position.
pub fn judge_lookup(zone_book: &[u8], line_book: &[u8], zone: u32, setting: u32) -> Looked
    ensures { result ≡ lookup_of zone_book.now line_book.now zone setting }
{
    if !places::sound_book(zone_book, false) {
        return Looked::Refused(numbers::BOOK_UNSOUND, 0);
    }
    if !places::sound_book(line_book, true) {
        return Looked::Refused(numbers::BOOK_UNSOUND, 1);
    }
    if search::twice_in(zone_book) {
        return Looked::Refused(numbers::ENTRY_TWICE, 0);
    }
    if search::twice_in(line_book) {
        return Looked::Refused(numbers::ENTRY_TWICE, 1);
    }
    let own = search::best_in(zone_book, zone, setting);
    if 0 < own {
        return Looked::Zone(places::place_at(own - 1) + 6);
    }
    let general = search::best_in(line_book, 0, setting);
    if 0 < general {
        return Looked::Line(places::place_at(general - 1) + 6);
    }
    Looked::Nothing
}

// Judges one book: 95, 96, or 0 if it passes both. `line` is true for the line book.
pub fn judge_book(book: &[u8], line: bool) -> u32
    ensures { result ≡ judge_book line book.now }
{
    if !places::sound_book(book, line) {
        return numbers::BOOK_UNSOUND;
    }
    if search::twice_in(book) {
        return numbers::ENTRY_TWICE;
    }
    0
}

// Adds an entry to its book, zone 0 to the line book. Refuses with 95, 96 or 98. The other book is not read.
pub fn add(
    zone_book: &mut [u8],
    line_book: &mut [u8],
    zone: u32,
    setting: u32,
    dialect: &[u8],
) -> Changed
    ensures value { result
        ≡ add_of zone_book.old line_book.old zone setting dialect.now }
    ensures zone_book_after { zone_book.new
        ≡ zone_added zone_book.old line_book.old zone setting dialect.now }
    ensures line_book_after { line_book.new
        ≡ line_added zone_book.old line_book.old zone setting dialect.now }
{
    if zone == 0 {
        return change::add_to(line_book, true, zone, setting, dialect);
    }
    change::add_to(zone_book, false, zone, setting, dialect)
}

// Removes the entry of exactly this zone and setting from its book. Refuses with 95, 96 or 97. The other book is not
// read.
pub fn remove(zone_book: &mut [u8], line_book: &mut [u8], zone: u32, setting: u32) -> Changed
    ensures value { result ≡ remove_of zone_book.old line_book.old zone setting }
    ensures zone_book_after { zone_book.new
        ≡ zone_removed zone_book.old line_book.old zone setting }
    ensures line_book_after { line_book.new
        ≡ line_removed zone_book.old line_book.old zone setting }
{
    if zone == 0 {
        return change::remove_from(line_book, true, zone, setting);
    }
    change::remove_from(zone_book, false, zone, setting)
}

// Makes an empty book of a buffer of 1 to 100 blocks and returns 0. Any other length is 95, and the buffer stays.
pub fn blank(book: &mut [u8]) -> u32
    ensures value { result ≡ blank_of (length book.old) }
    ensures book_after { book.new ≡ blank_after book.old }
{
    let n = book.len();
    if !places::sound_length(n) {
        return numbers::BOOK_UNSOUND;
    }
    change::blank_blocks(book, n / BLOCK_BYTES);
    0
}
