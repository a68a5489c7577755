// The number of a width or a precision (string_format_options.rs, `consume_u32`), and the character that comes next.
// Left out: which characters come before it, and what the number is for.
#![tactic(auto)]

ghost use Rattle.std.specs.Prelude.{◌≡◌, ◌≤◌, length, drop};
ghost use Rattle.base.specs.Refusal.{format_most};
ghost use Rattle.utf8.specs.Chars.{chars};
ghost use Rattle.format_number.specs.Number.{peeked, digits_from, consume_u32};

use base::chars::ZERO;
use format_options::FormatError;
use format_options::letters::{NO_CHAR, is_digit};

// `u32::MAX`, in 64 bits.
const INDEX_MAX: u64 = 4294967295;

// What `consume_u32` reads: the number, and how many digits it took after the first one.
#[derive(Clone, Copy, Debug, PartialEq, Eq)]
pub struct Number {
    pub n: u32,
    pub digits: usize,
}

// `chars.peek()`: the character at `at`, if there is one.
pub fn peek(format: &[u8], at: usize) -> u32
    ensures { result ≡ peeked (chars (drop at format.now)) }
{
    match utf8::read_char(format, at) {
        Ok((code, _)) => code,
        Err(_) => NO_CHAR,
    }
}

// The loop of `consume_u32`: the digits from `at` on, after a number n.
fn digits_from(format: &[u8], at: usize, first: u32) -> Result<Number, FormatError>
    requires { (first ≤ 9) × (length format.now ≤ format_most) × (at ≤ format_most) }
    ensures { result ≡ digits_from first 0 (chars (drop at format.now)) }
{
    let mut n = first as u64;
    let mut digits = 0;
    loop {
        let next = peek(format, at + digits);
        if !is_digit(next) {
            return Ok(Number {
                n: n as u32,
                digits,
            });
        }
        n = n * 10 + ((next - ZERO) as u64);
        if INDEX_MAX < n {
            return Err(FormatError::TooLarge(n));
        }
        digits += 1;
    }
}

// `consume_u32`: `first` has been taken, and what follows it stands from `at` on.
pub fn consume_u32(format: &[u8], first: u32, at: usize) -> Result<Number, FormatError>
    requires { (length format.now ≤ format_most) × (at ≤ format_most) }
    ensures { result ≡ consume_u32 first (chars (drop at format.now)) }
{
    if is_digit(first) {
        return digits_from(format, at, first - ZERO);
    }
    Err(FormatError::ExpectedNumber(first))
}
