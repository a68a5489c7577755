// Words as fixed byte strings, compared with the bytes of a source, and those that names are compared with one by one: "else", "else if", "r".
// Keywords and symbols are the crates `keywords` and `symbols`.
//
// It knows no characters, no state and no records. A place past the end is no fault: no bytes are there.
#![tactic(auto)]

ghost use Rattle.std.specs.Prelude.{◌≡◌, length, take, drop};
ghost use Rattle.words.specs.Words.{is_word, starts_with, else_word, else_if_word, r_word};

// How many of `len` bytes at `at` there are before the source ends.
pub fn within(source: &[u8], at: usize, len: usize) -> usize
    ensures { result ≡ length (take len (drop at source.now)) }
{
    source.len().saturating_sub(at).min(len)
}

// Do the bytes at `at` begin with the word?
pub fn starts_with(source: &[u8], at: usize, word: &[u8]) -> bool
    ensures { result ≡ starts_with word.now (drop at source.now) }
{
    source[at.min(source.len())..].starts_with(word)
}

// Are the `len` bytes at `at` the word?
fn is_word(source: &[u8], at: usize, len: usize, word: &[u8]) -> bool
    ensures { result ≡ is_word word.now (take len (drop at source.now)) }
{
    within(source, at, len) == word.len() && starts_with(source, at, word)
}

// Are the `len` bytes at `at` "else"?
pub fn is_else(source: &[u8], at: usize, len: usize) -> bool
    ensures { result ≡ is_word else_word (take len (drop at source.now)) }
{
    is_word(source, at, len, b"else")
}

// Do the bytes at `at` begin with "else if"? The word after it may go on: "else iffy" is "else if", then a name.
pub fn is_else_if(source: &[u8], at: usize) -> bool
    ensures { result ≡ starts_with else_if_word (drop at source.now) }
{
    starts_with(source, at, b"else if")
}

// Are the `len` bytes at `at` the "r" that may open a raw string?
pub fn is_r(source: &[u8], at: usize, len: usize) -> bool
    ensures { result ≡ is_word r_word (take len (drop at source.now)) }
{
    is_word(source, at, len, b"r")
}
