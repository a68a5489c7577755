// How far the bytes from a place on stay in what a loop passes, by blocks: printable ASCII characters but for three. It knows no characters above
// 127, no tokens and no states.
//
// A block is counted with no branch that depends on its bytes, as the smallest place of one that does not stay; LLVM makes vector instructions
// of that, and a block costs the same wherever its bytes end.
#![tactic(auto)]

ghost use Rattle.std.specs.Prelude.{◌≡◌, ◌+◌, ◌≤◌, ◌<◌, ℕ, Bool, false, ltb, length, get_or};
ghost use Rattle.base.specs.Pick.{pick};
ghost use Rattle.text.specs.Stands.{Stands};
ghost use Rattle.skip.specs.Skip.{stays_but, Counts, Passed, Past};

use base::between;
use position::Reach;

// What bytes stay.
pub trait Stays: Copy {
    ghost test: { Self → ℕ → Bool };

    fn stays(self, x: u8) -> bool
        ensures { result ≡ test self x };
}

// Printable ASCII characters that are none of the three.
#[derive(Clone, Copy)]
struct But {
    a: u8,
    b: u8,
    c: u8,
}

impl Stays for But {
    ghost test = { λ s. stays_but s.a s.b s.c };

    fn stays(self, x: u8) -> bool {
        between(x, b' ', b'~') & (x != self.a) & (x != self.b) & (x != self.c)
    }
}

// The place k of a byte that does not stay; of one that does, `most`.
pub fn place_out(stays: bool, k: u8, most: u8) -> u8
    ensures { result ≡ pick stays most k }
{
    if stays {
        return most;
    }
    k
}

// The smaller place. It stands apart from `place_out`, else LLVM makes branches of the two.
pub fn smaller(a: u8, b: u8) -> u8
    ensures { result ≡ pick (ltb a b) a b }
{
    if a < b {
        return a;
    }
    b
}

// How many of the bytes from `at` on stay before the first that does not, of a block of so many. It is inlined where the block's length is known.
pub fn count<T: Stays>(source: &[u8], at: usize, block: u8, what: T) -> usize
    requires { at + block ≤ length source.now }
    ensures { Counts (T.test what) source.now at block block result }
{
    let mut n = block;
    for k in 0..block {
        let out = place_out(what.stays(source[at + (k as usize)]), k, block);
        n = smaller(out, n);
    }
    n as usize
}

// Where the first byte from `at` on stands that does not stay, or the end, by single bytes.
pub fn end_singly<T: Stays>(source: &[u8], at: usize, what: T) -> usize
    requires { at ≤ length source.now }
    ensures passed { Passed (T.test what) source.now at result }
    ensures over { result < length source.now → T.test what (get_or source.now result 0) ≡ false }
{
    for i in at..source.len() {
        if !what.stays(source[i]) {
            return i;
        }
    }
    source.len()
}

// How far the bytes from `at` on stay. It may stop before one that would.
pub fn skip(source: &[u8], at: usize, a: u8, b: u8, c: u8) -> usize
    requires { at ≤ length source.now }
    ensures { Passed (stays_but a b c) source.now at result }
{
    let what = But { a, b, c };
    let mut i = at;
    while 64 <= source.len() - i {
        if !what.stays(source[i]) {
            return i;
        }
        let n = count(source, i, 64, what);
        if n < 64 {
            return i + n;
        }
        i += 64;
    }
    end_singly(source, i, what)
}

// The same with a first block of 32, for what is short most often. With fewer than three bytes that are left out, LLVM makes no vector instructions of
// so short a block.
pub fn skip_near(source: &[u8], at: usize, a: u8, b: u8, c: u8) -> usize
    requires { at ≤ length source.now }
    ensures { Passed (stays_but a b c) source.now at result }
{
    let what = But { a, b, c };
    if source.len() - at < 32 {
        return end_singly(source, at, what);
    }
    if !what.stays(source[at]) {
        return at;
    }
    let n = count(source, at, 32, what);
    if n < 32 {
        return at + n;
    }
    skip(source, at + 32, a, b, c)
}

// The same for one block of 32 alone, which is counted whole, wherever its bytes end. Near the end of the source it goes by single bytes.
pub fn skip_block(source: &[u8], at: usize, a: u8, b: u8, c: u8) -> usize
    requires { at ≤ length source.now }
    ensures { Passed (stays_but a b c) source.now at result }
{
    let what = But { a, b, c };
    if source.len() - at < 32 {
        return end_singly(source, at, what);
    }
    at + count(source, at, 32, what)
}

// `skip` from where reading stands, with its columns: one for each byte.
pub fn pass(source: &[u8], start: Reach, a: u8, b: u8, c: u8) -> Reach
    requires { Stands source.now start }
    ensures { Past (stays_but a b c) source.now start result }
{
    let at = start.byte.0;
    let end = skip(source, at, a, b, c);
    start.along_ascii(end - at)
}

// `skip_near` in the same way.
pub fn pass_near(source: &[u8], start: Reach, a: u8, b: u8, c: u8) -> Reach
    requires { Stands source.now start }
    ensures { Past (stays_but a b c) source.now start result }
{
    let at = start.byte.0;
    let end = skip_near(source, at, a, b, c);
    start.along_ascii(end - at)
}
