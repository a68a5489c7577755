// Quotes, braces and colons outside a string (lexer.rs `get_next_token`): the tokens of one byte that change the modes. It knows no lists.
#![tactic(auto)]

ghost use Rattle.std.specs.Prelude.{◌≡◌, ◌<◌, length};
ghost use Rattle.fitness.specs.Fit.{FitTable};
ghost use Rattle.token.specs.Kind.{error};
ghost use Rattle.text.specs.Stands.{Stands};
ghost use Rattle.state.specs.Lexer.{reach_of};
ghost use Rattle.brackets.specs.Brackets.{OpensIs, ClosesIs};

use state::{LITERAL, Lexer, TEMPLATE_EXPR, TEMPLATE_EXPR_FORMAT, TEMPLATE_EXPR_INLINE_MAP};
use token::{Token, kinds};

// A token that pushes a mode, and the mode's code. The kind Error says that there is none.
#[derive(Clone, Copy)]
pub struct Opening {
    pub token: Token,
    pub code: u16,
}

fn open_with(kind: u8, detail: u16, code: u16) -> Opening
    ensures { result ≡ record { token = record { kind = kind; detail = detail }; code = code } }
{
    Opening {
        token: Token { kind, detail },
        code,
    }
}

fn none() -> Opening
    ensures { result.token.kind ≡ error }
{
    open_with(kinds::ERROR, 0, 0)
}

// A quote, or what opens a map or format options in a template.
pub fn opens(source: &[u8], table: &[u32], lexer: Lexer) -> Opening
    requires { Stands source.now (reach_of lexer) × ((reach_of lexer).byte.0 < length source.now) × FitTable table.now }
    ensures { OpensIs source.now table.now lexer result }
{
    let at = lexer.place.current_byte.0;
    let b = source[at];
    if b == b'"' {
        return open_with(kinds::STRING_START, 0, LITERAL * 512);
    }
    if b == b'\'' {
        return open_with(kinds::STRING_START, 1, LITERAL * 512 + 1);
    }
    if lexer.mode != TEMPLATE_EXPR * 512 {
        return none();
    }
    if b == b':' {
        return open_with(kinds::COLON, 0, TEMPLATE_EXPR_FORMAT * 512);
    }
    if b == b'{' {
        return open_with(kinds::CURLY_OPEN, 0, TEMPLATE_EXPR_INLINE_MAP * 512);
    }
    none()
}

// A brace that closes a template, or a map in one.
pub fn closes(source: &[u8], table: &[u32], lexer: Lexer) -> bool
    requires { Stands source.now (reach_of lexer) × ((reach_of lexer).byte.0 < length source.now) × FitTable table.now }
    ensures { ClosesIs source.now table.now lexer result }
{
    let at = lexer.place.current_byte.0;
    if source[at] != b'}' {
        return false;
    }
    if lexer.mode == TEMPLATE_EXPR * 512 {
        return true;
    }
    if lexer.mode == TEMPLATE_EXPR_INLINE_MAP * 512 {
        return true;
    }
    false
}
