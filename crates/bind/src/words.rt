// The words of a binding: reading one, writing one, clearing all and writing them to the list.
ghost use Rattle.std.specs.Prelude.{◌≡◌, ◌++◌, ◌≤◌, length, get_or, set, drop, replicate};

// A word, 0 beyond the last.
pub(crate) fn word(words: &[u32], i: usize) -> u32
    ensures { result ≡ get_or words.now i 0 }
{
    if words.len() <= i {
        return 0;
    }
    words[i]
}

// Writes a word, if the list has one at that place.
pub(crate) fn store(words: &mut [u32], i: usize, value: u32)
    ensures { words.new ≡ set words.old i value }
{
    if words.len() <= i {
        return;
    }
    words[i] = value;
}

// Sets all words to 0.
pub(crate) fn clear(words: &mut [u32])
    ensures { words.new ≡ replicate (length words.old) 0 }
{
    words.fill(0);
}

// Writes words at the front of a list.
pub(crate) fn write(words: &[u32], list: &mut [u32])
    requires { length words.now ≤ length list.old }
    ensures { list.new ≡ words.now ++ drop (length words.now) list.old }
{
    let many = words.len();
    list[0..many].copy_from_slice(words);
}
