// Symbols (lexer.rs `consume_symbol`), and what they do to the modes of a template. It knows no list and no records.
#![tactic(auto)]

ghost use Rattle.std.specs.Prelude.{◌≡◌, ◌<◌, length};
ghost use Rattle.text.specs.Stands.{Stands, chars_from};
ghost use Rattle.state.specs.Lexer.{reach_of};
ghost use Rattle.symbol_tokens.specs.ConsumeSymbol.{symbol_change, consume_symbol};

use state::{Change, Lexer, Taken};
use token::{kinds, token_of};

// What a symbol does to the modes of a template; in map mode "{" pushes nothing.
fn symbol_change(mode: u16, kind: u8) -> Change
    ensures { result ≡ symbol_change mode kind }
{
    if mode == state::TEMPLATE_EXPR * 512 {
        return match kind {
            kinds::CURLY_OPEN => Change::Push(state::TEMPLATE_EXPR_INLINE_MAP * 512),
            kinds::COLON => Change::Push(state::TEMPLATE_EXPR_FORMAT * 512),
            kinds::CURLY_CLOSE => Change::Pop,
            _ => Change::Keep,
        };
    }
    if mode == state::TEMPLATE_EXPR_INLINE_MAP * 512 && kind == kinds::CURLY_CLOSE {
        return Change::Pop;
    }
    Change::Keep
}

// lexer.rs `consume_symbol`; an unknown symbol is an Error of one byte.
pub fn consume_symbol(source: &[u8], lexer: Lexer) -> Taken
    requires { Stands source.now (reach_of lexer) × ((reach_of lexer).byte.0 < length source.now) }
    ensures { result ≡ consume_symbol (chars_from source.now (reach_of lexer)) lexer }
{
    let at = lexer.place.current_byte.0;
    match symbols::symbol_at(source, at) {
        Some(symbol) => Taken {
            token: token_of(symbol.kind),
            lexer: lexer.advance_line(symbol.len),
            change: symbol_change(lexer.mode, symbol.kind),
        },
        None => lexer.token(kinds::ERROR, 1),
    }
}
