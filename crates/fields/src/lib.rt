// Reads little-endian fields from bytes. Bytes past the end read as zero, so every function takes bytes of any length.
#![tactic(auto)]

ghost use Rattle.std.specs.Prelude.{◌≡◌, get_or};
ghost use Rattle.fields.specs.Field.{field};

// The byte at a place.
pub fn byte(b: &[u8], at: usize) -> u8
    ensures { result ≡ get_or b.now at 0 }
{
    if at < b.len() { b[at] } else { 0 }
}

// The field of two bytes at a place.
pub fn half(b: &[u8], at: usize) -> u16
    ensures { result ≡ field 2 b.now at }
{
    if b.len() <= at {
        return 0;
    }
    let next = at + 1;
    (byte(b, at) as u16) + 256 * (byte(b, next) as u16)
}

// The field of four bytes at a place: two fields of two.
pub fn word(b: &[u8], at: usize) -> u32
    ensures { result ≡ field 4 b.now at }
{
    if b.len() <= at {
        return 0;
    }
    let from = &b[at..];
    (half(from, 0) as u32) + 65536 * (half(from, 2) as u32)
}

// The field of eight bytes at a place: two fields of four.
pub fn long(b: &[u8], at: usize) -> u64
    ensures { result ≡ field 8 b.now at }
{
    if b.len() <= at {
        return 0;
    }
    let from = &b[at..];
    (word(from, 0) as u64) + 4294967296 * (word(from, 4) as u64)
}
