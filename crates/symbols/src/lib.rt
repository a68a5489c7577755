// Which symbol stands at a place (lexer.rs `check_symbol!`).
//
// A symbol is first told by its first byte, so that at most four words are left to compare, longest first where the Rust does.
#![tactic(auto)]

ghost use Rattle.std.specs.Prelude.{◌≡◌, [], ◌∷◌, drop};
ghost use Rattle.symbols.specs.Symbols.{symbol_in, symbol_of};
ghost use Rattle.symbols.specs.Groups.{word, symbols_of};

use token::kinds::{
    ADD, ADD_ASSIGN, ARROW, ASSIGN, AT, COLON, COMMA, CURLY_CLOSE, CURLY_OPEN, DIVIDE,
    DIVIDE_ASSIGN, DOT, ELLIPSIS, EQUAL, FUNCTION, GREATER, GREATER_OR_EQUAL, LESS, LESS_OR_EQUAL,
    MULTIPLY, MULTIPLY_ASSIGN, NOT_EQUAL, POWER, POWER_ASSIGN, QUESTION_MARK, RANGE,
    RANGE_INCLUSIVE, REMAINDER, REMAINDER_ASSIGN, ROUND_CLOSE, ROUND_OPEN, SEMICOLON, SQUARE_CLOSE,
    SQUARE_OPEN, SUBTRACT, SUBTRACT_ASSIGN,
};
use words::starts_with;

// A symbol: its kind, and how many bytes it has.
#[derive(Clone, Copy, Debug, PartialEq, Eq)]
pub struct Symbol {
    pub kind: u8,
    pub len: usize,
}

// The symbol `text`, if the bytes at `at` begin with it.
fn check_symbol(source: &[u8], at: usize, text: [u8; 1], kind: u8) -> Option<Symbol>
    ensures { result ≡ symbol_in (word text kind ∷ []) (drop at source.now) }
{
    if starts_with(source, at, &text) {
        return Some(Symbol { kind, len: 1 });
    }
    None
}

// The symbol `text`, or else the shorter symbol `other`, if the bytes at `at` begin with it.
fn check_two(
    source: &[u8],
    at: usize,
    text: [u8; 2],
    kind: u8,
    other: [u8; 1],
    other_kind: u8,
) -> Option<Symbol>
    ensures { result ≡ symbol_in (word text kind ∷ word other other_kind ∷ []) (drop at source.now) }
{
    if starts_with(source, at, &text) {
        return Some(Symbol { kind, len: 2 });
    }
    check_symbol(source, at, other, other_kind)
}

// The symbol "!=": "!" alone is none.
fn check_not_equal(source: &[u8], at: usize) -> Option<Symbol>
    ensures { result ≡ symbol_in (symbols_of 33) (drop at source.now) }
{
    if starts_with(source, at, b"!=") {
        return Some(Symbol {
            kind: NOT_EQUAL,
            len: 2,
        });
    }
    None
}

// The symbols that begin with ".".
fn check_dots(source: &[u8], at: usize) -> Option<Symbol>
    ensures { result ≡ symbol_in (symbols_of 46) (drop at source.now) }
{
    if starts_with(source, at, b"...") {
        return Some(Symbol {
            kind: ELLIPSIS,
            len: 3,
        });
    }
    if starts_with(source, at, b"..=") {
        return Some(Symbol {
            kind: RANGE_INCLUSIVE,
            len: 3,
        });
    }
    check_two(source, at, *b"..", RANGE, *b".", DOT)
}

// The symbols that begin with "-".
fn check_minus(source: &[u8], at: usize) -> Option<Symbol>
    ensures { result ≡ symbol_in (symbols_of 45) (drop at source.now) }
{
    if starts_with(source, at, b"->") {
        return Some(Symbol {
            kind: ARROW,
            len: 2,
        });
    }
    check_two(source, at, *b"-=", SUBTRACT_ASSIGN, *b"-", SUBTRACT)
}

// The symbol that the bytes at `at` begin with.
pub fn symbol_at(source: &[u8], at: usize) -> Option<Symbol>
    ensures { result ≡ symbol_of (drop at source.now) }
{
    if source.len() <= at {
        return None;
    }
    let first = source[at];
    match first {
        b'!' => check_not_equal(source, at),
        b'%' => check_two(source, at, *b"%=", REMAINDER_ASSIGN, *b"%", REMAINDER),
        b'(' => check_symbol(source, at, *b"(", ROUND_OPEN),
        b')' => check_symbol(source, at, *b")", ROUND_CLOSE),
        b'*' => check_two(source, at, *b"*=", MULTIPLY_ASSIGN, *b"*", MULTIPLY),
        b'+' => check_two(source, at, *b"+=", ADD_ASSIGN, *b"+", ADD),
        b',' => check_symbol(source, at, *b",", COMMA),
        b'-' => check_minus(source, at),
        b'.' => check_dots(source, at),
        b'/' => check_two(source, at, *b"/=", DIVIDE_ASSIGN, *b"/", DIVIDE),
        b':' => check_symbol(source, at, *b":", COLON),
        b';' => check_symbol(source, at, *b";", SEMICOLON),
        b'<' => check_two(source, at, *b"<=", LESS_OR_EQUAL, *b"<", LESS),
        b'=' => check_two(source, at, *b"==", EQUAL, *b"=", ASSIGN),
        b'>' => check_two(source, at, *b">=", GREATER_OR_EQUAL, *b">", GREATER),
        b'?' => check_symbol(source, at, *b"?", QUESTION_MARK),
        b'@' => check_symbol(source, at, *b"@", AT),
        b'[' => check_symbol(source, at, *b"[", SQUARE_OPEN),
        b']' => check_symbol(source, at, *b"]", SQUARE_CLOSE),
        b'^' => check_two(source, at, *b"^=", POWER_ASSIGN, *b"^", POWER),
        b'{' => check_symbol(source, at, *b"{", CURLY_OPEN),
        b'|' => check_symbol(source, at, *b"|", FUNCTION),
        b'}' => check_symbol(source, at, *b"}", CURLY_CLOSE),
        _ => None,
    }
}
