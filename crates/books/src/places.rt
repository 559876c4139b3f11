// One book: its length, its blocks and its places, and the bytes of an entry.
ghost use Rattle.std.specs.Prelude.{◌≡◌, ◌==◌, ◌+◌, ◌≤◌, length, take, drop};
ghost use Rattle.std.specs.List.{list_all};
ghost use Rattle.books.specs.Book.{places_of, place_at, entry_at, sound_entry, sound_place, sound_places};
ghost use Rattle.books.specs.Book.{sound_length, sound_blocks, sound_book, belongs};

use blocks::BLOCK_BYTES;

// Whether a book has a sound length, sound blocks and sound places; if not, it is refused with 95.
pub(crate) fn sound_book(book: &[u8], line: bool) -> bool
    ensures { result ≡ sound_book line book.now }
{
    let size = sound_length(book.len());
    if !size {
        return false;
    }
    if !sound_blocks(book) {
        return false;
    }
    sound_places(book, line)
}

// Whether n bytes are 1 to 100 whole blocks.
pub(crate) fn sound_length(n: usize) -> bool
    ensures { result ≡ sound_length n }
{
    (n % BLOCK_BYTES == 0) & ((1 <= n / BLOCK_BYTES) & (n / BLOCK_BYTES <= 100))
}

// Whether the blocks pass, numbered from 0 on, with all 504 bytes used.
fn sound_blocks(book: &[u8]) -> bool
    ensures { result ≡ sound_blocks book.now }
{
    let judged = blocks::judge_run(book, 0, 504 * (book.len() / BLOCK_BYTES));
    match judged {
        Ok(()) => true,
        Err(_) => false,
    }
}

// Whether every place is empty or holds an entry that is sound in this book.
fn sound_places(book: &[u8], line: bool) -> bool
    ensures { result ≡ sound_places line book.now (places_of book.now) }
{
    let n = 21 * (book.len() / BLOCK_BYTES);
    for p in 0..n {
        if !sound_place(entry(book, p), line) {
            return false;
        }
    }
    true
}

// Whether a place is empty, or holds an entry that is sound in this book.
fn sound_place(e: &[u8], line: bool) -> bool
    ensures { result ≡ sound_place line e.now }
{
    empty(e) | sound_entry(e, line)
}

// Whether an entry is sound in this book: its setting, its dialect, its zeros and its zone.
fn sound_entry(e: &[u8], line: bool) -> bool
    ensures { result ≡ sound_entry line e.now }
{
    let valid = dialect::valid_bytes(piece(e, 6, 9));
    let padded = empty(piece(e, 15, 9));
    let here = belongs(line, fields::half(e, 0));
    (1 <= fields::word(e, 2)) & (valid & (padded & here))
}

// Whether a zone belongs into this book: zone 0 into the line book, all others into the zone book.
fn belongs(line: bool, zone: u16) -> bool
    ensures { result ≡ belongs line zone }
{
    if line { zone == 0 } else { zone != 0 }
}

// Whether all bytes are zero.
pub(crate) fn empty(e: &[u8]) -> bool
    ensures { result ≡ list_all (λ x. x == 0) e.now }
{
    e.iter().all(|x| *x == 0)
}

// The first byte of a place.
pub(crate) fn place_at(p: usize) -> usize
    requires { place_at p + 24 ≤ 18446744073709551615 }
    ensures { result ≡ place_at p }
{
    512 * (p / 21) + (4 + 24 * (p % 21))
}

// The 24 bytes of a place.
pub(crate) fn entry(book: &[u8], p: usize) -> &[u8]
    requires { place_at p + 24 ≤ length book.now }
    ensures { result.now ≡ entry_at book.now p }
{
    let at = 512 * (p / 21) + (4 + 24 * (p % 21));
    &book[at..at + 24]
}

// The n bytes from `at` on, or fewer if the bytes end before.
pub(crate) fn piece(bytes: &[u8], at: usize, n: usize) -> &[u8]
    ensures { result.now ≡ take n (drop at bytes.now) }
{
    if bytes.len() < at {
        return &bytes[0..0];
    }
    let rest = &bytes[at..];
    if rest.len() < n {
        return &bytes[at..];
    }
    &rest[0..n]
}
