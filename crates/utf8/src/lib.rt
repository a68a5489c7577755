// UTF-8 (RFC 3629): one character read at a place of a slice, and a check of a whole slice. Bytes that are wrong are told from bytes
// that the end of the slice cuts. koto has this from Rust's `str`; here it is added, for bytes that are tested once.
// Left out: byte order marks, and any repair of what is ill-formed.
#![tactic(auto)]

pub mod answer;

ghost use Rattle.std.specs.Prelude.{◌≡◌, ◌<◌, eqb, length};
ghost use Rattle.utf8.specs.Read.{seq_len, second_ok, code2, code3, code4, fourth, third, second, decode_head, read_at};
ghost use Rattle.utf8.specs.Lengths.{len_of, opens_by, all_single, is_block};
ghost use Rattle.utf8.specs.Chars.{check_from};

use base::between;

// How many bytes are passed at once where each is a character of its own.
const BLOCK: usize = 128;

// Why no character stands at a place.
#[derive(Clone, Copy, Debug, PartialEq, Eq)]
pub enum ReadError {
    // No character begins with these bytes.
    Bad,
    // The bytes to the end are a proper beginning of a character; where there is none left, that is a beginning of every character.
    Cut,
}

// Why a slice is not well formed.
#[derive(Clone, Copy, Debug, PartialEq, Eq)]
pub enum Utf8Error {
    // All before the place is well formed, and no character begins with the bytes from it on.
    BadAt(usize),
    // All before the place is well formed, and the bytes from it to the end, of which there are some, begin a character.
    CutAt(usize),
}

// The length of the sequence that a byte opens, by the count of its leading ones; 0 where it opens none.
#[tactic(auto, using(crate::proofs::Lead::seq_len_by), unfolding(crate::proofs::Lead::len_by))]
pub fn lead_len(a: u8) -> usize
    ensures { result ≡ seq_len a }
{
    match a.leading_ones() {
        0 => 1,
        // C0 and C1 would open overlong forms of one byte.
        2 if a < 0xc2 => 0,
        2 => 2,
        3 => 3,
        // F5 and up would open what lies past U+10FFFF.
        4 if a < 0xf5 => 4,
        _ => 0,
    }
}

// Whether b may follow the lead byte a: E0 and F0 shut out overlong forms, ED surrogates, F4 what lies past U+10FFFF.
#[tactic(auto, unfolding(crate::specs::Read::second_ok))]
fn second_ok(a: u8, b: u8) -> bool
    ensures { result ≡ second_ok a b }
{
    match a {
        0xe0 => between(b, 0xa0, 0xbf),
        0xed => between(b, 0x80, 0x9f),
        0xf0 => between(b, 0x90, 0xbf),
        0xf4 => between(b, 0x80, 0x8f),
        _ => between(b, 0x80, 0xbf),
    }
}

// The code points of two, three and four bytes.
pub fn join2(a: u8, b: u8) -> u32
    ensures { result ≡ code2 a b }
{
    ((a % 32) as u32) * 64 + ((b % 64) as u32)
}

pub fn join3(a: u8, b: u8, c: u8) -> u32
    ensures { result ≡ code3 a b c }
{
    ((a % 16) as u32) * 4096 + ((b % 64) as u32) * 64 + ((c % 64) as u32)
}

pub fn join4(a: u8, b: u8, c: u8, d: u8) -> u32
    ensures { result ≡ code4 a b c d }
{
    ((a % 8) as u32) * 262144
        + ((b % 64) as u32) * 4096
        + ((c % 64) as u32) * 64
        + ((d % 64) as u32)
}

// From the fourth byte on: the three before it are right.
#[tactic(auto, unfolding(crate::specs::Read::fourth))]
fn read_fourth(l: &[u8]) -> Result<(u32, usize), ReadError>
    ensures { result ≡ fourth l.now }
{
    if l.len() < 4 {
        return Err(ReadError::Cut);
    }
    if !between(l[3], 0x80, 0xbf) {
        return Err(ReadError::Bad);
    }
    Ok((join4(l[0], l[1], l[2], l[3]), 4))
}

// From the third byte on: the two before it are right, and the sequence has n bytes.
#[tactic(auto, unfolding(crate::specs::Read::third))]
fn read_third(n: usize, l: &[u8]) -> Result<(u32, usize), ReadError>
    ensures { result ≡ third n l.now }
{
    if l.len() < 3 {
        return Err(ReadError::Cut);
    }
    if !between(l[2], 0x80, 0xbf) {
        return Err(ReadError::Bad);
    }
    if n == 3 {
        return Ok((join3(l[0], l[1], l[2]), 3));
    }
    read_fourth(l)
}

// From the second byte on: the first opens a sequence of n bytes.
#[tactic(auto, unfolding(crate::specs::Read::second))]
fn read_second(n: usize, l: &[u8]) -> Result<(u32, usize), ReadError>
    ensures { result ≡ second n l.now }
{
    if l.len() < 2 {
        return Err(ReadError::Cut);
    }
    if !second_ok(l[0], l[1]) {
        return Err(ReadError::Bad);
    }
    if n == 2 {
        return Ok((join2(l[0], l[1]), 2));
    }
    read_third(n, l)
}

// The first character of l: its lead byte says how long it is, before any other byte is tested.
#[tactic(auto, unfolding(crate::specs::Read::decode_head, crate::specs::Read::head_of))]
fn read_head(l: &[u8]) -> Result<(u32, usize), ReadError>
    ensures { result ≡ decode_head l.now }
{
    if l.len() < 1 {
        return Err(ReadError::Cut);
    }
    let a = l[0];
    let n = lead_len(a);
    if n == 0 {
        return Err(ReadError::Bad);
    }
    if n == 1 {
        return Ok((a as u32, 1));
    }
    read_second(n, l)
}

// The character at a place of s: its code point, and how many bytes it has. At the end of s and past it nothing is left, which is `Cut`.
pub fn read_char(s: &[u8], at: usize) -> Result<(u32, usize), ReadError>
    ensures { result ≡ read_at s.now at }
{
    if s.len() <= at {
        return Err(ReadError::Cut);
    }
    read_head(&s[at..])
}

// Does s begin with the lead byte of a sequence of n bytes and a byte that may follow it, and has it so many?
fn opens(s: &[u8], n: usize) -> bool
    requires { (0 < length s.now) × (1 < n) }
    ensures { result ≡ opens_by s.now n }
{
    if lead_len(s[0]) != n {
        return false;
    }
    if s.len() < n {
        return false;
    }
    second_ok(s[0], s[1])
}

// Has the first character of s two bytes? Then it is passed without being put together.
fn is_two(s: &[u8]) -> bool
    requires { 0 < length s.now }
    ensures { result ≡ eqb (len_of (decode_head s.now)) 2 }
{
    opens(s, 2)
}

// Has it three?
fn is_three(s: &[u8]) -> bool
    requires { 0 < length s.now }
    ensures { result ≡ eqb (len_of (decode_head s.now)) 3 }
{
    if !opens(s, 3) {
        return false;
    }
    between(s[2], 0x80, 0xbf)
}

// Is each byte of s a character of its own? The loop has no branch, so it is compiled to take several bytes at once.
fn all_single(s: &[u8]) -> bool
    ensures { result ≡ all_single s.now }
{
    let mut ok = true;
    for &b in s {
        ok &= lead_len(b) == 1;
    }
    ok
}

// Does a whole block of such bytes begin at the place? Blocks begin at the multiples of their length, so that text which is not ASCII is
// seldom asked.
fn is_block(s: &[u8], at: usize) -> bool
    requires { at < length s.now }
    ensures { result ≡ is_block s.now at }
{
    if at % BLOCK != 0 {
        return false;
    }
    if s.len() - at < BLOCK {
        return false;
    }
    all_single(&s[at..at + BLOCK])
}

// Whether all of s is well formed; if not, where the longest well-formed beginning ends, and whether the bytes there are wrong or cut.
pub fn check_utf8(s: &[u8]) -> Result<(), Utf8Error>
    ensures { result ≡ check_from 0 s.now }
{
    let mut i = 0;
    while i < s.len() {
        if lead_len(s[i]) == 1 {
            if is_block(s, i) {
                i += BLOCK;
                continue;
            }
            i += 1;
            continue;
        }
        if is_three(&s[i..]) {
            i += 3;
            continue;
        }
        if is_two(&s[i..]) {
            i += 2;
            continue;
        }
        match read_char(s, i) {
            Ok((_, len)) => {
                i += len;
            }
            Err(ReadError::Bad) => {
                return Err(Utf8Error::BadAt(i));
            }
            Err(ReadError::Cut) => {
                return Err(Utf8Error::CutAt(i));
            }
        }
    }
    Ok(())
}
