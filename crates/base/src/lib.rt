// What the other crates share: `pick` and the ways to reason by it, the rules that close a return, a number in a range, a test at each of
// some numbers, laws of lists, document 01's refusal numbers, and characters by their names. What is not code stands in specs/.
#![tactic(auto, unfolding(crate::specs::Range::inside))]

pub mod chars;
pub mod refusals;

ghost use Rattle.std.specs.Prelude.{◌≡◌};
ghost use Rattle.base.specs.Range.{inside};

// Is the byte in the range, both ends counted?
pub fn between(b: u8, lo: u8, hi: u8) -> bool
    ensures { result ≡ inside b lo hi }
{
    if b < lo {
        return false;
    }
    b <= hi
}

// The same of a code point.
pub fn code_between(c: u32, lo: u32, hi: u32) -> bool
    ensures { result ≡ inside c lo hi }
{
    if c < lo {
        return false;
    }
    c <= hi
}
