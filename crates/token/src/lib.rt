// Tokens as lexer.rs's `Token` has them: a kind (see `kinds`) and a detail, which is 0 but for a StringStart, where it says which `StringType`
// begins. It knows no records, no source and no state.
#![tactic(auto)]

ghost use Rattle.std.specs.Prelude.{◌≡◌};
ghost use Rattle.token.specs.Token.{token_of, string_start_of, raw_string_start_of, is_whitespace, is_whitespace_including_newline};
ghost use Rattle.token.specs.Detail.{detail_allowed};

use crate::kinds::{COMMENT_MULTI, COMMENT_SINGLE, NEW_LINE, STRING_START, WHITESPACE};

pub mod kinds;

// The greatest detail of a StringStart: a raw string in single quotes with 255 hashes.
pub const DETAIL_MOST: u32 = 513;

// The quotes of a string, lexer.rs `StringQuote`.
pub const DOUBLE_QUOTE: u8 = 34;

pub const SINGLE_QUOTE: u8 = 39;

#[derive(Clone, Copy)]
pub struct Token {
    pub kind: u8,
    pub detail: u16,
}

// The token of a kind that has no detail.
pub fn token_of(kind: u8) -> Token
    ensures { result ≡ token_of kind }
{
    Token { kind, detail: 0 }
}

impl Token {
    // The start of a normal string with this quote.
    pub fn string_start(quote: u8) -> Token
        ensures { result ≡ string_start_of quote }
    {
        if quote == DOUBLE_QUOTE {
            return Token {
                kind: STRING_START,
                detail: 0,
            };
        }
        Token {
            kind: STRING_START,
            detail: 1,
        }
    }

    // The start of a raw string with this quote and so many hashes.
    pub fn raw_string_start(quote: u8, hash_count: u8) -> Token
        ensures { result ≡ raw_string_start_of quote hash_count }
    {
        let hashes = hash_count as u16;
        if quote == DOUBLE_QUOTE {
            return Token {
                kind: STRING_START,
                detail: 2 + 2 * hashes,
            };
        }
        Token {
            kind: STRING_START,
            detail: 3 + 2 * hashes,
        }
    }

    // Is the token counted as whitespace?
    pub fn is_whitespace(self) -> bool
        ensures { result ≡ is_whitespace self }
    {
        self.kind == WHITESPACE || (self.kind == COMMENT_MULTI || self.kind == COMMENT_SINGLE)
    }

    // Is the token counted as whitespace, including newlines?
    pub fn is_whitespace_including_newline(self) -> bool
        ensures { result ≡ is_whitespace_including_newline self }
    {
        self.is_whitespace() || self.kind == NEW_LINE
    }
}

// May a record of this kind have this detail?
pub fn detail_allowed(kind: u32, detail: u32) -> bool
    ensures { result ≡ detail_allowed kind detail }
{
    if kind == STRING_START as u32 {
        return detail <= DETAIL_MOST;
    }
    detail == 0
}
