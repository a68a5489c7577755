// Symbols for the fast engine (lexer.rs `consume_symbol`): told by their first byte and the one behind it. It knows no lists and no classes of bytes.
//
// The row of symbols is a constant, which would be built anew at each use where it is indexed; so a caller keeps `signs()` in a local and lends it.
#![tactic(auto)]

mod table;

ghost use Rattle.std.specs.Prelude.{◌≡◌, ◌+◌, ◌*◌, ◌/◌, ◌%◌, ◌<◌, length, get_or};
ghost use Rattle.text.specs.Bytes.{byte_at};
ghost use Rattle.text.specs.Stands.{Stands};
ghost use Rattle.state.specs.Lexer.{reach_of};
ghost use Rattle.symbol_tokens.specs.ConsumeSymbol.{consume_symbol};
ghost use Rattle.state.specs.declared.Change.TheVariants.{Keep};
ghost use Rattle.text.specs.Stands.{chars_from};
ghost use Rattle.plain.specs.Plain.{FindsPlain};
ghost use Rattle.signs.specs.Signs.{Alone, WithEquals, Single, SignIs};
ghost use Rattle.signs.specs.Table.{behind, SignTable};

use base::chars::{DOT, GREATER};
use found::{Found, along, nothing};
use plain::Plain;
use state::{Change, Lexer};
use text::byte_at;
use token::kinds;

// "=" as the second byte of a symbol.
const EQUALS: u32 = 61;

// The kind of a symbol of one byte that begins no longer one; Error where the byte is none of these.
fn single(b: u8) -> u8
    ensures { Single b result }
{
    match b {
        b'(' => kinds::ROUND_OPEN,
        b')' => kinds::ROUND_CLOSE,
        b',' => kinds::COMMA,
        b';' => kinds::SEMICOLON,
        b'?' => kinds::QUESTION_MARK,
        b'@' => kinds::AT,
        b'[' => kinds::SQUARE_OPEN,
        b']' => kinds::SQUARE_CLOSE,
        b'|' => kinds::FUNCTION,
        _ => kinds::ERROR,
    }
}

// The kind of a symbol of one byte behind which no "=" stands; Error where the byte is none of these.
fn alone(b: u8) -> u8
    ensures { Alone b result }
{
    match b {
        b'%' => kinds::REMAINDER,
        b'*' => kinds::MULTIPLY,
        b'+' => kinds::ADD,
        b'/' => kinds::DIVIDE,
        b'<' => kinds::LESS,
        b'=' => kinds::ASSIGN,
        b'>' => kinds::GREATER,
        b'^' => kinds::POWER,
        _ => kinds::ERROR,
    }
}

// The kind of a byte and the "=" behind it; Error where they are no symbol.
fn with_equals(b: u8) -> u8
    ensures { WithEquals b result }
{
    match b {
        b'!' => kinds::NOT_EQUAL,
        b'%' => kinds::REMAINDER_ASSIGN,
        b'*' => kinds::MULTIPLY_ASSIGN,
        b'+' => kinds::ADD_ASSIGN,
        b'/' => kinds::DIVIDE_ASSIGN,
        b'<' => kinds::LESS_OR_EQUAL,
        b'=' => kinds::EQUAL,
        b'>' => kinds::GREATER_OR_EQUAL,
        b'^' => kinds::POWER_ASSIGN,
        _ => kinds::ERROR,
    }
}

// A symbol of one byte that begins no longer one.
pub fn single_sign(source: &[u8], lexer: Lexer) -> Found
    requires { Stands source.now (reach_of lexer) × ((reach_of lexer).byte.0 < length source.now) }
    ensures { SignIs source.now lexer result }
{
    let at = lexer.place.current_byte.0;
    along(lexer, single(source[at]), 0, 1, Change::Keep)
}

// A symbol that may have "=" behind it.
pub fn operator(source: &[u8], lexer: Lexer) -> Found
    requires { Stands source.now (reach_of lexer) × ((reach_of lexer).byte.0 < length source.now) }
    ensures { SignIs source.now lexer result }
{
    let at = lexer.place.current_byte.0;
    if byte_at(source, at + 1) == EQUALS {
        return along(lexer, with_equals(source[at]), 0, 2, Change::Keep);
    }
    along(lexer, alone(source[at]), 0, 1, Change::Keep)
}

// A symbol that begins with "-".
pub fn minus(source: &[u8], lexer: Lexer) -> Found
    requires { Stands source.now (reach_of lexer) × (byte_at source.now (reach_of lexer).byte.0 ≡ 45) }
    ensures { SignIs source.now lexer result }
{
    let at = lexer.place.current_byte.0;
    let next = byte_at(source, at + 1);
    if next == GREATER {
        return along(lexer, kinds::ARROW, 0, 2, Change::Keep);
    }
    if next == EQUALS {
        return along(lexer, kinds::SUBTRACT_ASSIGN, 0, 2, Change::Keep);
    }
    along(lexer, kinds::SUBTRACT, 0, 1, Change::Keep)
}

// A dot behind which none stands.
pub fn dot(source: &[u8], lexer: Lexer) -> Found
    requires { Stands source.now (reach_of lexer) × (byte_at source.now (reach_of lexer).byte.0 ≡ 46) }
    ensures { SignIs source.now lexer result }
{
    let at = lexer.place.current_byte.0;
    if byte_at(source, at + 1) == DOT {
        return nothing();
    }
    along(lexer, kinds::DOT, 0, 1, Change::Keep)
}

// "{": in a template it opens a map.
pub fn curly_open(source: &[u8], lexer: Lexer) -> Found
    requires { Stands source.now (reach_of lexer) × (byte_at source.now (reach_of lexer).byte.0 ≡ 123) }
    ensures { SignIs source.now lexer result }
{
    if lexer.mode == state::TEMPLATE_EXPR * 512 {
        return along(
            lexer,
            kinds::CURLY_OPEN,
            0,
            1,
            Change::Push(state::TEMPLATE_EXPR_INLINE_MAP * 512),
        );
    }
    along(lexer, kinds::CURLY_OPEN, 0, 1, Change::Keep)
}

// ":": in a template the format options follow it.
pub fn colon(source: &[u8], lexer: Lexer) -> Found
    requires { Stands source.now (reach_of lexer) × (byte_at source.now (reach_of lexer).byte.0 ≡ 58) }
    ensures { SignIs source.now lexer result }
{
    if lexer.mode == state::TEMPLATE_EXPR * 512 {
        return along(
            lexer,
            kinds::COLON,
            0,
            1,
            Change::Push(state::TEMPLATE_EXPR_FORMAT * 512),
        );
    }
    along(lexer, kinds::COLON, 0, 1, Change::Keep)
}

// "}": it closes a template, or a map in one.
pub fn curly_close(source: &[u8], lexer: Lexer) -> Found
    requires { Stands source.now (reach_of lexer) × (byte_at source.now (reach_of lexer).byte.0 ≡ 125) }
    ensures { SignIs source.now lexer result }
{
    if lexer.mode == state::TEMPLATE_EXPR * 512 {
        return along(lexer, kinds::CURLY_CLOSE, 0, 1, Change::Pop);
    }
    if lexer.mode == state::TEMPLATE_EXPR_INLINE_MAP * 512 {
        return along(lexer, kinds::CURLY_CLOSE, 0, 1, Change::Pop);
    }
    along(lexer, kinds::CURLY_CLOSE, 0, 1, Change::Keep)
}

// The symbol of every byte below 128, by the byte behind it.
pub fn signs() -> [u8; 512]
    ensures { SignTable result }
{
    table::SIGNS
}

// Where in the row the symbols stand that have such a byte behind them.
fn row_of(next: u32) -> usize
    ensures { result ≡ 128 * behind next }
{
    if next == EQUALS {
        return 128;
    }
    if next == GREATER {
        return 256;
    }
    if next == DOT {
        return 384;
    }
    0
}

// The symbol of a value of the row.
fn plain_of(entry: u8) -> Plain
    ensures { result ≡ record { kind = entry % 128; len = 1 + entry / 128 } }
{
    Plain {
        kind: entry % 128,
        len: 1 + ((entry / 128) as usize),
    }
}

// The symbol that begins with an ASCII character, by one look-up; none where the row does not tell it, or the mode decides what it does.
pub fn sign(source: &[u8], signs: &[u8; 512], lexer: Lexer) -> Plain
    requires stands { Stands source.now (reach_of lexer) × ((reach_of lexer).byte.0 < length source.now) }
    requires lexer_bound { (get_or source.now (reach_of lexer).byte.0 0 < 128) × SignTable signs.now }
    ensures { FindsPlain Keep (consume_symbol (chars_from source.now (reach_of lexer)) lexer) lexer result }
{
    let at = lexer.place.current_byte.0;
    let first = source[at] as usize;
    plain_of(signs[first + row_of(byte_at(source, at + 1))])
}
