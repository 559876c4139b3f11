// Marks of names in an array that the caller lends. Each name has a place and leaves its mark there; a name whose place
// does not show its mark is new and need not be searched for. With an empty array every name may have been seen.
ghost use Rattle.std.specs.Prelude.{◌≡◌, ◌<◌};
ghost use Rattle.forest.specs.Marks.{mixed, hash_of, joined as joined_of, tells as tells_of, noted, may_stand};

// A list of at least SHORT bytes of records gets SOME marks, one of at least LONG bytes MANY. No answer depends on it.
pub const SHORT: usize = 240;

pub const LONG: usize = 6144;

// Sizes of the two mark arrays: SOME for a short list, MANY for a long one.
pub const SOME: usize = 512;

pub const MANY: usize = 16384;

// The mark of a place that is shared by names with different marks.
const SEVERAL: u8 = 255;

// Notes a name. Returns whether a name of the same bytes may have been noted before.
pub fn note(marks: &mut [u8], name: &[u8]) -> bool
    ensures value { result ≡ may_stand marks.old name.now }
    ensures marks_after { marks.new ≡ noted marks.old name.now }
{
    let n = marks.len();
    if n == 0 {
        return true;
    }
    let h = hash(name);
    let at = h % n;
    let mark = ((h % 254) as u8) + 1;
    let old = marks[at];
    marks[at] = joined(old, mark);
    tells(old, mark)
}

// The value of a place after one more mark.
fn joined(old: u8, mark: u8) -> u8
    ensures { result ≡ joined_of old mark }
{
    if (old == 0) | (old == mark) {
        return mark;
    }
    SEVERAL // names with different marks have this place
}

// Whether the value of a place shows a mark.
fn tells(old: u8, mark: u8) -> bool
    ensures { result ≡ tells_of old mark }
{
    (old == mark) | (old == SEVERAL)
}

// A hash of 32 bits, from the hash so far and the next eight bytes.
fn mix(h: usize, w: u64) -> usize
    requires { h < 4294967296 }
    ensures { result ≡ mixed h w }
{
    let low = (w % 4294967296) as usize;
    let high = (w / 4294967296) as usize;
    ((h + low) * 625341585 + high * 1013904223) / 268435456 % 4294967296
}

// The hash of the bytes of a name: eight at a time, then the rest.
fn hash(name: &[u8]) -> usize
    ensures { result ≡ hash_of name.now }
{
    let groups = name.chunks_exact(8);
    let rest = groups.remainder();
    let mut h = 0;
    for group in groups {
        h = mix(h, fields::long(group, 0));
    }
    mix(h, fields::long(rest, 0))
}
