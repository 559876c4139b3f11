// Writing bytes into a buffer, and numbers as bytes, the low byte first.
ghost use Rattle.std.specs.Prelude.{◌≡◌, ◌++◌, ◌+◌, ◌≤◌, length, leb};
ghost use Rattle.fields.specs.Field.{bytes_of};
ghost use Rattle.fields.specs.Over.{over};
ghost use Rattle.blocks.specs.Laid.{laid_at, low_byte};

// Writes bytes into a buffer from a place on. If they do not fit there, nothing changes.
pub fn put(bytes: &[u8], at: usize, out: &mut [u8])
    ensures { out.new ≡ laid_at at bytes.now out.old }
{
    if !fits(at, bytes.len(), out.len()) {
        return;
    }
    lay(bytes, at, out)
}

// Two numbers as two bytes each.
pub fn pair(a: usize, b: usize) -> [u8; 4]
    ensures { result ≡ bytes_of 2 a ++ bytes_of 2 b }
{
    [low(a), low(a / 256), low(b), low(b / 256)]
}

// A number as four bytes.
pub fn quad(n: u32) -> [u8; 4]
    ensures { result ≡ bytes_of 4 n }
{
    let a = n as usize;
    let b = a / 256;
    let c = b / 256;
    let d = c / 256;
    [low(a), low(b), low(c), low(d)]
}

// The low byte of a number.
pub fn low(n: usize) -> u8
    ensures { result ≡ low_byte n }
{
    (n % 256) as u8
}

// Whether n bytes from place `at` on fit into a buffer of `room` bytes.
fn fits(at: usize, n: usize, room: usize) -> bool
    ensures { result ≡ leb (at + n) room }
{
    if room < at {
        return false;
    }
    n <= room - at
}

// Writes bytes that fit into a buffer from a place on. `copy_from_slice` would be compiled to a call of memmove, which
// the archive for C does not need otherwise (tools/native-lib); this loop is one of memcpy.
fn lay(bytes: &[u8], at: usize, out: &mut [u8])
    requires { at + length bytes.now ≤ length out.old }
    ensures { out.new ≡ over at bytes.now out.old }
{
    for i in 0..bytes.len() {
        out[at + i] = bytes[i];
    }
}
