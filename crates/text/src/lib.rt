// Reading along a source: the byte and the character at a place, runs of characters that pass a test, and what a loop over characters
// does at one of them. It carries over `consume_and_count` and `consume_and_count_utf8` of lexer.rs, whose predicates are types with a
// test here, and the ASCII predicates beside them. It knows no tokens.
#![tactic(auto)]

ghost use Rattle.std.specs.Prelude.{◌≡◌, ◌+◌, ◌<◌, ℕ, Bool, true, length, drop};
ghost use Rattle.utf8.specs.Encode.{WellFormed};
ghost use Rattle.utf8.specs.Chars.{chars};
ghost use Rattle.property.specs.Table.{properties_at};
ghost use Rattle.fitness.specs.Fit.{FitTable};
ghost use Rattle.fitness.specs.Ascii.{is_name_part, is_printable};
ghost use Rattle.text.specs.Bytes.{byte_at};
ghost use Rattle.text.specs.Tests.{is_whitespace, is_binary_digit, is_octal_digit, is_decimal_digit, is_hex_digit, is_hash, is_line_end, no_line_end, id_continue};
ghost use Rattle.text.specs.CountLaws.{whitespace_ascii, binary_ascii, octal_ascii, decimal_ascii, hex_ascii, hash_ascii, AtOnce, no_line_end_once, id_continue_once};
ghost use Rattle.text.specs.Ascii.{ascii_properties};
ghost use Rattle.text.specs.Count.{count_while, run_test};
ghost use Rattle.text.specs.Stands.{Stands};
ghost use Rattle.text.specs.Chars.{CharIs, DecodedIs, LenIs};

use base::between;
use position::Reach;

// What a loop does at a character.
#[derive(Clone, Copy)]
pub enum Turn {
    // So many bytes are passed, which take so many columns.
    Pass(usize, u32),
    // So many bytes are passed, and a line ends with them.
    Line(usize),
    // The end is found: so many bytes and columns belong to the token still.
    Close(usize, u32),
    // An Error that passes nothing.
    Stuck,
}

// A character: its code point, its bytes, and its properties.
#[derive(Clone, Copy)]
pub struct Char {
    pub code: u32,
    pub len: usize,
    pub properties: u32,
}

// The byte at `at`, or 256 past the end.
pub fn byte_at(source: &[u8], at: usize) -> u32
    ensures { result ≡ byte_at source.now at }
{
    if at < source.len() {
        return source[at] as u32;
    }
    256
}

// lexer.rs `is_whitespace`
fn is_whitespace(b: u8) -> bool
    ensures { result ≡ is_whitespace b }
{
    b == b' ' || b == b'\t'
}

// lexer.rs `is_binary_digit`. Like the three below it takes the underscore too.
fn is_binary_digit(b: u8) -> bool
    ensures { result ≡ is_binary_digit b }
{
    between(b, b'0', b'1') || b == b'_'
}

// lexer.rs `is_octal_digit`
fn is_octal_digit(b: u8) -> bool
    ensures { result ≡ is_octal_digit b }
{
    between(b, b'0', b'7') || b == b'_'
}

// lexer.rs `is_decimal_digit`
fn is_decimal_digit(b: u8) -> bool
    ensures { result ≡ is_decimal_digit b }
{
    between(b, b'0', b'9') || b == b'_'
}

// lexer.rs `is_hex_digit`
fn is_hex_digit(b: u8) -> bool
    ensures { result ≡ is_hex_digit b }
{
    between(b, b'0', b'9') || (between(b, b'a', b'f') || (between(b, b'A', b'F') || b == b'_'))
}

// A predicate that only ASCII characters pass: what `run_end` asks of each.
pub trait ByteTest {
    ghost test: { ℕ → Bool };

    fn passes(b: u8) -> bool
        ensures { result ≡ test b };

    ghost ascii: { (c : ℕ) → test c ≡ true → c < 128 };
}

pub struct Whitespace;

impl ByteTest for Whitespace {
    ghost test = { is_whitespace };

    fn passes(b: u8) -> bool {
        is_whitespace(b)
    }

    ghost ascii = { whitespace_ascii };
}

pub struct BinaryDigit;

impl ByteTest for BinaryDigit {
    ghost test = { is_binary_digit };

    fn passes(b: u8) -> bool {
        is_binary_digit(b)
    }

    ghost ascii = { binary_ascii };
}

pub struct OctalDigit;

impl ByteTest for OctalDigit {
    ghost test = { is_octal_digit };

    fn passes(b: u8) -> bool {
        is_octal_digit(b)
    }

    ghost ascii = { octal_ascii };
}

pub struct DecimalDigit;

impl ByteTest for DecimalDigit {
    ghost test = { is_decimal_digit };

    fn passes(b: u8) -> bool {
        is_decimal_digit(b)
    }

    ghost ascii = { decimal_ascii };
}

pub struct HexDigit;

impl ByteTest for HexDigit {
    ghost test = { is_hex_digit };

    fn passes(b: u8) -> bool {
        is_hex_digit(b)
    }

    ghost ascii = { hex_ascii };
}

pub struct Hash;

impl ByteTest for Hash {
    ghost test = { is_hash };

    fn passes(b: u8) -> bool {
        b == b'#'
    }

    ghost ascii = { hash_ascii };
}

// lexer.rs `consume_and_count`: the byte after the run of characters from `at` on that pass the test, all ASCII.
pub fn run_end<T: ByteTest>(source: &[u8], at: usize) -> usize
    requires { WellFormed (drop at source.now) }
    ensures { result ≡ at + count_while T.test (chars (drop at source.now)) }
{
    for i in at..source.len() {
        if !T::passes(source[i]) {
            return i;
        }
    }
    at.max(source.len())
}

// The properties that every fit table gives an ASCII character: document 01, the small table.
#[tactic(auto, unfolding(crate::specs::Ascii::ascii_properties))]
fn ascii_properties(b: u8) -> u32
    ensures { result ≡ ascii_properties b }
{
    if between(b, b'a', b'z') {
        return 7;
    }
    if between(b, b'A', b'Z') {
        return 7;
    }
    if between(b, b'0', b'9') {
        return 6;
    }
    if b == b'_' {
        return 6;
    }
    if b == b'\n' {
        return 32;
    }
    if b == b'\r' {
        return 16;
    }
    if b < b' ' {
        return 48;
    }
    if b == 0x7f {
        return 48;
    }
    4
}

// A character without its properties: its code point and its bytes.
#[derive(Clone, Copy)]
struct Decoded {
    code: u32,
    len: usize,
}

// The character at `at`. The bytes are well formed, so the lead byte says how many it has, and no other needs a test.
fn decode(source: &[u8], at: usize) -> Decoded
    requires { WellFormed (drop at source.now) × (at < length source.now) }
    ensures { DecodedIs source.now at result }
{
    let a = source[at];
    let n = utf8::lead_len(a);
    if n == 1 {
        return Decoded {
            code: a as u32,
            len: 1,
        };
    }
    if n == 2 {
        return Decoded {
            code: utf8::join2(a, source[at + 1]),
            len: 2,
        };
    }
    if n == 3 {
        return Decoded {
            code: utf8::join3(a, source[at + 1], source[at + 2]),
            len: 3,
        };
    }
    Decoded {
        code: utf8::join4(a, source[at + 1], source[at + 2], source[at + 3]),
        len: 4,
    }
}

// How many bytes the character at `at` has.
pub fn char_len(source: &[u8], at: usize) -> usize
    requires { WellFormed (drop at source.now) × (at < length source.now) }
    ensures { LenIs source.now at result }
{
    let c = decode(source, at);
    c.len
}

// A character, and the run to try first for the next one.
#[derive(Clone, Copy)]
pub struct Near {
    pub char: Char,
    pub run: usize,
}

// The character at `at`, with its properties looked up.
fn wide_near(source: &[u8], table: &[u32], at: usize, near: usize) -> Near
    requires well_formed { WellFormed (drop at source.now) × (at < length source.now) }
    requires fit_table { FitTable table.now }
    ensures { CharIs source.now table.now at result.char }
{
    let c = decode(source, at);
    let run = property::run_near(table, c.code, near);
    Near {
        char: Char {
            code: c.code,
            len: c.len,
            properties: property::properties_in(table, run),
        },
        run,
    }
}

// The character at `at`. The run `near` is tried first, which may be any number. It has two callers, so that LLVM inlines it in neither,
// but inlines `run_utf8`.
pub fn char_near(source: &[u8], table: &[u32], at: usize, near: usize) -> Near
    requires well_formed { WellFormed (drop at source.now) × (at < length source.now) }
    requires fit_table { FitTable table.now }
    ensures { CharIs source.now table.now at result.char }
{
    let b = source[at];
    if b < 0x80 {
        return Near {
            char: Char {
                code: b as u32,
                len: 1,
                properties: ascii_properties(b),
            },
            run: near,
        };
    }
    wide_near(source, table, at, near)
}

// The character at `at`. No run is tried first: the count is no run's number.
pub fn char_at(source: &[u8], table: &[u32], at: usize) -> Char
    requires well_formed { WellFormed (drop at source.now) × (at < length source.now) }
    requires fit_table { FitTable table.now }
    ensures { CharIs source.now table.now at result }
{
    let c = char_near(source, table, at, table.len());
    c.char
}

fn is_line_end(code: u32) -> bool
    ensures { result ≡ is_line_end code }
{
    code == 10 || code == 13
}

// A letter, a digit or the underscore.
fn is_name_part(b: u8) -> bool
    ensures { result ≡ is_name_part b }
{
    between(b, b'A', b'Z') || (between(b, b'a', b'z') || (between(b, b'0', b'9') || b == b'_'))
}

// A predicate on characters, by their code point and their properties: what `run_utf8` asks of each.
pub trait CharTest {
    ghost test: { ℕ → ℕ → Bool };

    ghost at_once: { ℕ → Bool };

    fn passes(code: u32, properties: u32) -> bool
        ensures { result ≡ test code properties };

    // An ASCII character that passes and takes one column, whatever the table.
    fn passes_at_once(b: u8) -> bool
        ensures { result ≡ at_once b };

    ghost once: { AtOnce test at_once };
}

pub struct NoLineEnd;

impl CharTest for NoLineEnd {
    ghost test = { no_line_end };

    ghost at_once = { is_printable };

    #[tactic(auto, unfolding(crate::specs::Tests::no_line_end))]
    fn passes(code: u32, properties: u32) -> bool {
        !is_line_end(code)
    }

    fn passes_at_once(b: u8) -> bool {
        between(b, b' ', b'~')
    }

    ghost once = { no_line_end_once };
}

pub struct IdContinue;

impl CharTest for IdContinue {
    ghost test = { id_continue };

    ghost at_once = { is_name_part };

    #[tactic(auto, unfolding(crate::specs::Tests::id_continue))]
    fn passes(code: u32, properties: u32) -> bool {
        property::is_id_continue(properties)
    }

    fn passes_at_once(b: u8) -> bool {
        is_name_part(b)
    }

    ghost once = { id_continue_once };
}

// lexer.rs `consume_and_count_utf8`: how far the run of characters from `start` on that pass the test reaches.
pub fn run_utf8<T: CharTest>(source: &[u8], table: &[u32], start: Reach) -> Reach
    requires { Stands source.now start × FitTable table.now }
    ensures { result ≡ run_test (properties_at table.now) T.test start (chars (drop start.byte.0 source.now)) }
{
    let mut reach = start;
    let mut i = reach.byte.0;
    // The run of the last character that was looked up: in a name most others are in it too.
    let mut near = 0;
    while i < source.len() {
        if T::passes_at_once(source[i]) {
            reach = reach.along_ascii(1);
            i = reach.byte.0;
            continue;
        }
        let c = char_near(source, table, i, near);
        if !T::passes(c.char.code, c.char.properties) {
            return reach;
        }
        reach = reach.along(c.char.len, property::width_of(c.char.properties));
        i = reach.byte.0;
        near = c.run;
    }
    reach
}
