// Names of records: equal when their bytes are.
ghost use Rattle.std.specs.Prelude.{◌≡◌, length};
ghost use Rattle.forest.specs.Forest.{node_of};
ghost use Rattle.forest.specs.Names.{name_of, same};

// The name of the first record of a stretch, as far as it lies within the name bytes.
pub fn name<'a>(names: &'a [u8], t: &[u8]) -> &'a [u8]
    ensures { result.now ≡ name_of names.now (node_of 0 t.now) }
{
    let n = names.len();
    let a = crate::name_start(t) as usize;
    if n < a {
        return &names[0..0];
    }
    let e = a + (crate::name_len(t) as usize);
    if n < e {
        return &names[a..n];
    }
    &names[a..e]
}

// Whether two lists of bytes are the same: their lengths, then eight bytes at a time, then the rest. It is not
// `a == b`, since the wrong answers first_group_twice, one_byte_missed and tail_not_compared are about these steps.
pub fn same_bytes(a: &[u8], b: &[u8]) -> bool
    ensures { result ≡ same a.now b.now }
{
    let n = a.len();
    if n != b.len() {
        return false;
    }
    if n < 8 {
        return same_rest(a, b);
    }
    same_groups(a, b)
}

// Compares two lists of equal length: eight bytes at a time, then the rest.
fn same_groups(a: &[u8], b: &[u8]) -> bool
    requires { length a.now ≡ length b.now }
    ensures { result ≡ same a.now b.now }
{
    let groups = a.chunks_exact(8);
    let others = b.chunks_exact(8);
    let rest = groups.remainder();
    let other = others.remainder();
    for (x, y) in groups.zip(others) {
        if fields::long(x, 0) != fields::long(y, 0) {
            return false;
        }
    }
    same_rest(rest, other)
}

// Compares two lists of equal length byte by byte.
fn same_rest(a: &[u8], b: &[u8]) -> bool
    requires { length a.now ≡ length b.now }
    ensures { result ≡ same a.now b.now }
{
    let n = a.len();
    for i in 0..n {
        if a[i] != b[i] {
            return false;
        }
    }
    true
}
