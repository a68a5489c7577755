// Which keyword a name is (lexer.rs `check_keyword!`).
//
// A name's length and first letters give it one of 64 places, and no two keywords have the same. So a name is compared with one word at most,
// the one that stands at its place.
#![tactic(auto)]

ghost use Rattle.std.specs.Prelude.{◌≡◌, ◌≤◌, take, drop};
ghost use Rattle.keywords.specs.Keywords.{keyword_of};
ghost use Rattle.keywords.specs.Places.{place_by, text_at, kind_at};

use token::kinds::{
    AND, AS, AWAIT, BREAK, CATCH, CONST, CONTINUE, DEBUG, EXPORT, FALSE, FINALLY, FOR, FROM, ID,
    IF, IMPORT, IN, LET, LOOP, MATCH, NOT, NULL, OR, RETURN, SELF_, SWITCH, THEN, THROW, TRUE, TRY,
    UNTIL, WHILE, YIELD,
};
use words::{starts_with, within};

// The place of a name of `len` bytes that begins with these two. By length and first byte alone, "if" and "in", "then" and "true", "catch" and
// "const" would have the same.
fn place(len: usize, first: u8, second: u8) -> usize
    requires { len ≤ 8 }
    ensures { result ≡ place_by len first second }
{
    (5 * (first as usize) + 2 * ((second as usize) / 2) + len) % 64
}

// The bytes of the keyword that has a place, filled up to eight with dots; only dots where none has it. LLVM makes a table of constants of this
// and of `kind_at`; an array that is indexed would be built on the stack at each use.
fn text_at(place: usize) -> [u8; 8]
    ensures { result ≡ text_at place }
{
    match place {
        0 => [b'w', b'h', b'i', b'l', b'e', b'.', b'.', b'.'],
        3 => [b'l', b'e', b't', b'.', b'.', b'.', b'.', b'.'],
        6 => [b'm', b'a', b't', b'c', b'h', b'.', b'.', b'.'],
        10 => [b'y', b'i', b'e', b'l', b'd', b'.', b'.', b'.'],
        14 => [b'l', b'o', b'o', b'p', b'.', b'.', b'.', b'.'],
        20 => [b'c', b'a', b't', b'c', b'h', b'.', b'.', b'.'],
        22 => [b'a', b'n', b'd', b'.', b'.', b'.', b'.', b'.'],
        23 => [b'n', b'o', b't', b'.', b'.', b'.', b'.', b'.'],
        25 => [b'a', b's', b'.', b'.', b'.', b'.', b'.', b'.'],
        29 => [b'd', b'e', b'b', b'u', b'g', b'.', b'.', b'.'],
        30 => [b'n', b'u', b'l', b'l', b'.', b'.', b'.', b'.'],
        31 => [b'o', b'r', b'.', b'.', b'.', b'.', b'.', b'.'],
        32 => [b'a', b'w', b'a', b'i', b't', b'.', b'.', b'.'],
        33 => [b'b', b'r', b'e', b'a', b'k', b'.', b'.', b'.'],
        34 => [b'c', b'o', b'n', b's', b't', b'.', b'.', b'.'],
        35 => [b'f', b'a', b'l', b's', b'e', b'.', b'.', b'.'],
        36 => [b'r', b'e', b't', b'u', b'r', b'n', b'.', b'.'],
        37 => [b'c', b'o', b'n', b't', b'i', b'n', b'u', b'e'],
        39 => [b's', b'e', b'l', b'f', b'.', b'.', b'.', b'.'],
        45 => [b'f', b'i', b'n', b'a', b'l', b'l', b'y', b'.'],
        47 => [b'f', b'o', b'r', b'.', b'.', b'.', b'.', b'.'],
        48 => [b't', b'h', b'e', b'n', b'.', b'.', b'.', b'.'],
        49 => [b't', b'h', b'r', b'o', b'w', b'.', b'.', b'.'],
        52 => [b'f', b'r', b'o', b'm', b'.', b'.', b'.', b'.'],
        53 => [b'i', b'f', b'.', b'.', b'.', b'.', b'.', b'.'],
        55 => [b'e', b'x', b'p', b'o', b'r', b't', b'.', b'.'],
        57 => [b't', b'r', b'y', b'.', b'.', b'.', b'.', b'.'],
        58 => [b't', b'r', b'u', b'e', b'.', b'.', b'.', b'.'],
        59 => [b's', b'w', b'i', b't', b'c', b'h', b'.', b'.'],
        60 => [b'u', b'n', b't', b'i', b'l', b'.', b'.', b'.'],
        61 => [b'i', b'n', b'.', b'.', b'.', b'.', b'.', b'.'],
        63 => [b'i', b'm', b'p', b'o', b'r', b't', b'.', b'.'],
        _ => [b'.', b'.', b'.', b'.', b'.', b'.', b'.', b'.'],
    }
}

// The kind of the keyword that has a place; Id where none has it.
fn kind_at(place: usize) -> u8
    ensures { result ≡ kind_at place }
{
    match place {
        0 => WHILE,
        3 => LET,
        6 => MATCH,
        10 => YIELD,
        14 => LOOP,
        20 => CATCH,
        22 => AND,
        23 => NOT,
        25 => AS,
        29 => DEBUG,
        30 => NULL,
        31 => OR,
        32 => AWAIT,
        33 => BREAK,
        34 => CONST,
        35 => FALSE,
        36 => RETURN,
        37 => CONTINUE,
        39 => SELF_,
        45 => FINALLY,
        47 => FOR,
        48 => THEN,
        49 => THROW,
        52 => FROM,
        53 => IF,
        55 => EXPORT,
        57 => TRY,
        58 => TRUE,
        59 => SWITCH,
        60 => UNTIL,
        61 => IN,
        63 => IMPORT,
        _ => ID,
    }
}

// The kind of the keyword that the `len` bytes at `at` are, or Id.
#[tactic(auto, using(crate::proofs::Narrow::too_short, crate::proofs::Narrow::too_long))]
pub fn keyword(source: &[u8], at: usize, len: usize) -> u8
    ensures { result ≡ keyword_of (take len (drop at source.now)) }
{
    let n = within(source, at, len);
    if n < 2 {
        return ID;
    }
    if 8 < n {
        return ID;
    }
    let place = place(n, source[at], source[at + 1]);
    let text = text_at(place);
    // Most names differ from the keyword at their place in a letter that gives it: these need no loop.
    if source[at] != text[0] {
        return ID;
    }
    if source[at + 1] != text[1] {
        return ID;
    }
    if starts_with(source, at, &text[..n]) {
        return kind_at(place);
    }
    ID
}
