// Changes of one book: adding and removing an entry, which is judged first and then written; making an empty book.
ghost use Rattle.std.specs.Prelude.{◌≡◌, ◌*◌, ◌<◌, length, replicate};
ghost use Rattle.fields.specs.Field.{bytes_of};
ghost use Rattle.blocks.specs.Block.{block_of};
ghost use Rattle.books.specs.Book.{places_of};
ghost use Rattle.books.specs.Change.{entry_of, no_entry_bytes, may_add, put_entry, add_in, remove_in, after};
ghost use Rattle.books.specs.Change.{place_to_add, book_number, blank_blocks};

use crate::{Changed, places, search};
use blocks::{BLOCK_BYTES, bytes};
use table::numbers;

// Adds an entry to this book. It is judged first, so a refusal changes nothing.
pub(crate) fn add_to(
    book: &mut [u8],
    line: bool,
    zone: u32,
    setting: u32,
    dialect: &[u8],
) -> Changed
    ensures value { result ≡ add_in line book.old zone setting dialect.now }
    ensures book_after { book.new ≡ after result (entry_of zone setting dialect.now) book.old }
{
    if !may_add(zone, setting, dialect) {
        return Changed::Refused(numbers::BOOK_UNSOUND, book_number(line));
    }
    let judged = place_to_add(book, line, zone, setting);
    match judged {
        Changed::Placed(b, p) => {
            let e = entry_of(zone, setting, dialect);
            put_entry(book, p, &e);
            Changed::Placed(b, p)
        }
        Changed::Refused(n, b) => Changed::Refused(n, b),
        Changed::Bare(n) => Changed::Bare(n),
    }
}

// Removes an entry from this book. The removal is judged first, so a refusal changes nothing.
pub(crate) fn remove_from(book: &mut [u8], line: bool, zone: u32, setting: u32) -> Changed
    ensures value { result ≡ remove_in line book.old zone setting }
    ensures book_after { book.new ≡ after result no_entry_bytes book.old }
{
    let judged = place_to_remove(book, line, zone, setting);
    match judged {
        Changed::Placed(b, p) => {
            let e = [0u8; 24];
            put_entry(book, p, &e);
            Changed::Placed(b, p)
        }
        Changed::Refused(n, b) => Changed::Refused(n, b),
        Changed::Bare(n) => Changed::Bare(n),
    }
}

// The place for an entry that may be added: the first empty one, or a refusal with 95, 96 or 98.
fn place_to_add(book: &[u8], line: bool, zone: u32, setting: u32) -> Changed
    ensures { result ≡ place_to_add line book.now zone setting }
{
    if !places::sound_book(book, line) {
        return Changed::Refused(numbers::BOOK_UNSOUND, book_number(line));
    }
    if search::twice_in(book) {
        return Changed::Refused(numbers::ENTRY_TWICE, book_number(line));
    }
    let seen = search::seen_in(book, zone, setting, 21 * (book.len() / BLOCK_BYTES));
    let first = search::first_empty(book);
    if seen {
        return Changed::Refused(numbers::ENTRY_TWICE, book_number(line));
    }
    if first == 0 {
        return Changed::Bare(numbers::NO_EMPTY_PLACE);
    }
    Changed::Placed(book_number(line), first - 1)
}

// The place of the entry to remove, or a refusal with 95, 96 or 97.
fn place_to_remove(book: &[u8], line: bool, zone: u32, setting: u32) -> Changed
    ensures { result ≡ remove_in line book.now zone setting }
{
    if !places::sound_book(book, line) {
        return Changed::Refused(numbers::BOOK_UNSOUND, book_number(line));
    }
    if search::twice_in(book) {
        return Changed::Refused(numbers::ENTRY_TWICE, book_number(line));
    }
    let first = search::first_for(book, zone, setting);
    if first == 0 {
        return Changed::Bare(numbers::NO_ENTRY);
    }
    Changed::Placed(book_number(line), first - 1)
}

// The number of a book: 1 the line book, 0 the zone book.
fn book_number(line: bool) -> u32
    ensures { result ≡ book_number line }
{
    if line { 1 } else { 0 }
}

// Whether an entry may be added: its setting, its zone and its nine dialect bytes.
fn may_add(zone: u32, setting: u32, dialect: &[u8]) -> bool
    ensures { result ≡ may_add zone setting dialect.now }
{
    (1 <= setting) & ((zone <= 65535) & dialect::valid_bytes(dialect))
}

// The 24 bytes of an entry.
fn entry_of(zone: u32, setting: u32, dialect: &[u8]) -> [u8; 24]
    requires { length dialect.now ≡ 9 }
    ensures { result ≡ entry_of zone setting dialect.now }
{
    let mut e = [0u8; 24];
    let z = two(zone);
    bytes::put(&z, 0, &mut e);
    let s = bytes::quad(setting);
    bytes::put(&s, 2, &mut e);
    bytes::put(dialect, 6, &mut e);
    e
}

// A number as two bytes.
fn two(n: u32) -> [u8; 2]
    ensures { result ≡ bytes_of 2 n }
{
    let a = n as usize;
    [bytes::low(a), bytes::low(a / 256)]
}

// Writes the 24 bytes of a place, and renews the sum of its block.
fn put_entry(book: &mut [u8], p: usize, e: &[u8])
    requires { (p < places_of book.old) × (length e.now ≡ 24) }
    ensures { book.new ≡ put_entry book.old p e.now }
{
    let at = places::place_at(p);
    bytes::put(e, at, book);
    let k = BLOCK_BYTES * (p / 21);
    let check = bytes::quad(blocks::sum(&book[k..k + 512]));
    bytes::put(&check, k + 508, book)
}

// Writes n empty blocks one after another.
pub(crate) fn blank_blocks(book: &mut [u8], n: usize)
    requires { length book.old ≡ 512 * n }
    ensures { book.new ≡ blank_blocks n }
{
    for k in 0..n {
        let b = blank_block(k);
        bytes::put(&b, BLOCK_BYTES * k, book);
    }
}

// The block with this number and 504 zero bytes.
fn blank_block(k: usize) -> [u8; 512]
    ensures { result ≡ block_of k (replicate 504 0) }
{
    let mut b = [0u8; 512];
    let head = bytes::pair(k, 504);
    bytes::put(&head, 0, &mut b);
    let check = bytes::quad(blocks::sum(&b));
    bytes::put(&check, 508, &mut b);
    b
}
