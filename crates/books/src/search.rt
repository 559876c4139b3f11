// Searches over the places of a book: a repeated entry, the best entry, the first empty place.
ghost use Rattle.std.specs.Prelude.{◌≡◌, ◌&&◌, ◌<◌, ◌≤◌};
ghost use Rattle.books.specs.Book.{places_of, is_for, seen_in, seen_before, twice_in};
ghost use Rattle.books.specs.Marked.{may_repeat, noted_entry};
ghost use Rattle.books.specs.Lookup.{fits, Chosen};
ghost use Rattle.books.specs.Change.{empty_at, for_at, First};

use crate::places;
use blocks::BLOCK_BYTES;
use forest::marks;

// Whether two entries of a book have the same zone and setting (96). Empty places never count. Entries are recorded in
// marks, so that most are not compared with the earlier ones.
pub(crate) fn twice_in(book: &[u8]) -> bool
    ensures { result ≡ twice_in book.now (places_of book.now) }
{
    let mut noted = [0u8; marks::MANY];
    twice_among(book, &mut noted)
}

// The same, with the marks in a buffer of the caller. Its content at entry does not affect the answer.
fn twice_among(book: &[u8], noted: &mut [u8]) -> bool
    ensures { result ≡ twice_in book.now (places_of book.now) }
{
    let n = 21 * (book.len() / BLOCK_BYTES);
    for p in 0..n {
        let may = note(places::entry(book, p), noted);
        if again(book, p, may) {
            return true;
        }
    }
    false
}

// Marks the entry of a place, and returns whether an entry with its zone and setting may have been marked before. An
// empty place is not marked.
fn note(e: &[u8], noted: &mut [u8]) -> bool
    ensures value { result ≡ may_repeat noted.old e.now }
    ensures noted_after { noted.new ≡ noted_entry noted.old e.now }
{
    if places::empty(e) {
        return false;
    }
    marks::note(noted, places::piece(e, 0, 6))
}

// Whether an earlier place has the zone and setting of this one. It is searched only if `may` says that there may be
// one.
fn again(book: &[u8], p: usize, may: bool) -> bool
    requires { p < places_of book.now }
    ensures { result ≡ (may && seen_before book.now p) }
{
    if !may {
        return false;
    }
    let e = places::entry(book, p);
    seen_in(book, fields::half(e, 0) as u32, fields::word(e, 2), p)
}

// Whether one of the first n places is for this zone and setting.
pub(crate) fn seen_in(book: &[u8], zone: u32, setting: u32, n: usize) -> bool
    requires { n ≤ places_of book.now }
    ensures { result ≡ seen_in zone setting book.now n }
{
    for q in 0..n {
        if is_for(places::entry(book, q), zone, setting) {
            return true;
        }
    }
    false
}

// Whether an entry is for exactly this zone and setting.
fn is_for(e: &[u8], zone: u32, setting: u32) -> bool
    ensures { result ≡ is_for zone setting e.now }
{
    !places::empty(e) & ((fields::half(e, 0) as u32 == zone) & (fields::word(e, 2) == setting))
}

// The best place of a zone for a setting, counted from 1; 0 if none fits.
pub(crate) fn best_in(book: &[u8], zone: u32, setting: u32) -> usize
    ensures { Chosen zone setting book.now result }
{
    let n = 21 * (book.len() / BLOCK_BYTES);
    let mut best = 0;
    let mut top = 0;
    for p in 0..n {
        let e = places::entry(book, p);
        let s = fields::word(e, 2);
        let better = fits(e, zone, setting) & (top < s);
        if better {
            best = p + 1;
            top = s;
        }
    }
    best
}

// Whether an entry has this zone and a setting that is not above the requested one.
fn fits(e: &[u8], zone: u32, setting: u32) -> bool
    ensures { result ≡ fits zone setting e.now }
{
    !places::empty(e) & ((fields::half(e, 0) as u32 == zone) & (fields::word(e, 2) <= setting))
}

// The first empty place, counted from 1; 0 if there is none.
pub(crate) fn first_empty(book: &[u8]) -> usize
    ensures { First (empty_at book.now) (places_of book.now) result }
{
    let n = 21 * (book.len() / BLOCK_BYTES);
    let mut first = 0;
    for p in 0..n {
        let here = places::empty(places::entry(book, p));
        if here & (first == 0) {
            first = p + 1;
        }
    }
    first
}

// The place of a zone and a setting, counted from 1; 0 if there is none.
pub(crate) fn first_for(book: &[u8], zone: u32, setting: u32) -> usize
    ensures { First (for_at zone setting book.now) (places_of book.now) result }
{
    let n = 21 * (book.len() / BLOCK_BYTES);
    for p in 0..n {
        if is_for(places::entry(book, p), zone, setting) {
            return p + 1;
        }
    }
    0
}
