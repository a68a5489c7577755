// The fields of a text: one case a line, fields separated by one space, bytes in hex and numbers in decimal (tools/README.md). What is read is
// compared by running, so the contracts say no more than what a caller needs to be safe and to end.
ghost use Rattle.std.specs.Prelude.{◌≡◌, true, ◌+◌, ◌<◌, ◌≤◌, length, IfSome};

// The place after the first `mark` from `at` on: with a space the next field, with a newline the next line. Where there is none it is the end
// of the text, or `at` where that is past the end. So within the text it is further on.
pub fn past(text: &[u8], at: usize, mark: u8) -> usize
    ensures { at < length text.now → at < result }
{
    if text.len() <= at {
        return at;
    }
    match text[at..].iter().position(|b| *b == mark) {
        Some(i) => at + i + 1,
        None => text.len(),
    }
}

// The decimal number at a place, up to the first byte that is no digit; 0 where no digit is there. It has at most 19 digits.
pub fn number(text: &[u8], at: usize) -> usize
    ensures { result < 10000000000000000000 }
{
    let mut value = 0;
    for b in text.iter().skip(at) {
        // A number so large takes no further digit.
        if !b.is_ascii_digit() || 1_000_000_000_000_000_000 <= value {
            break;
        }
        value = 10 * value + usize::from(*b - b'0');
    }
    value
}

// What a hex digit says.
fn digit_of(b: u8) -> Option<u8>
    ensures { IfSome result (λ digit. digit < 16) }
{
    match b {
        b'0'..=b'9' => Some(b - b'0'),
        b'a'..=b'f' => Some(b - b'a' + 10),
        _ => None,
    }
}

// The byte that two hex digits say.
fn byte_of(high: u8, low: u8) -> Option<u8> {
    Some(16 * digit_of(high)? + digit_of(low)?)
}

// Puts the bytes that the hex digits at the start of a text say at the start of out, and answers them. It stops at the first byte that is no
// digit, as the "-" that stands for no bytes, or when out is full; the rest of out stays.
pub fn hex<'a>(text: &[u8], out: &'a mut [u8]) -> &'a [u8]
    ensures { length result.now ≤ length out.old }
{
    let most = out.len().min(text.len() / 2);
    for i in 0..most {
        let Some(byte) = byte_of(text[2 * i], text[2 * i + 1]) else {
            return &out[..i];
        };
        out[i] = byte;
    }
    &out[..most]
}

// The fields that are left of a text, in which one space stands between two of them. A field that is not there is empty: no bytes, and the
// number 0.
#[derive(Clone, Copy)]
pub struct Fields<'a> {
    pub rest: &'a [u8],
}

impl<'a> Fields<'a> {
    // All fields of a text.
    pub fn of(text: &'a [u8]) -> Fields<'a>
        ensures { result.rest.now ≡ text.now }
    {
        Fields { rest: text }
    }

    // Whether the next field is there, and no `-`.
    pub fn is_given(&self) -> bool
        ensures { result ≡ true → 0 < length self.now.rest.now }
    {
        self.rest.first().is_some_and(|b| *b != b'-')
    }

    // The next field.
    pub fn word(&mut self) -> &'a [u8]
        ensures { length result.now ≤ length self.old.rest.now }
    {
        let rest = self.rest;
        match rest.iter().position(|b| *b == b' ') {
            Some(i) => {
                self.rest = &rest[i + 1..];
                &rest[..i]
            }
            None => {
                self.rest = &[];
                rest
            }
        }
    }

    // The number of the next field.
    pub fn number(&mut self) -> usize
        ensures { result < 10000000000000000000 }
    {
        number(self.word(), 0)
    }

    // The bytes of the next field, at the start of out, as far as they fit there.
    pub fn hex<'b>(&mut self, out: &'b mut [u8]) -> &'b [u8]
        ensures { length result.now ≤ length out.old }
    {
        hex(self.word(), out)
    }

    // Whether the next field has this number.
    pub fn same(&mut self, value: usize) -> bool
        ensures { result ≡ true → value < 10000000000000000000 }
    {
        self.number() == value
    }

    // Whether the next fields have these numbers.
    pub fn all_same(&mut self, values: &[u32]) -> bool
        ensures { length values.now ≡ 0 → result ≡ true }
    {
        values.iter().all(|value| self.same(*value as usize))
    }
}
