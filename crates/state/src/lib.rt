// The lexer's state (lexer.rs `TokenLexer` and `StringMode`) in two structs: the stack of modes with its array, and the rest with copies of
// the stack's depth and top. Every method takes the rest by value and hands the next one back; one that changes the modes is lent their
// array, which stays in its place. It knows no source and no list.
#![tactic(auto)]

ghost use Rattle.std.specs.Prelude.{◌≡◌, ◌≤◌, ◌<◌};
ghost use Rattle.base.specs.Refusal.{source_most};
ghost use Rattle.position.specs.Position.{column_most};
ghost use Rattle.state.specs.Modes.{quote_of, hash_count_of};
ghost use Rattle.state.specs.Lexer.{start_lexer, at_place, advanced_line, advanced_line_utf8, advanced_to, reach_of, settled, indented, remembered, token_to, token_along, stuck_at};
ghost use Rattle.state.specs.State.{start_state, state_of, pushed, popped, replaced, changed_by, Fits};

use position::{Place, Reach};
use token::{Token, kinds, token_of};

// The tags of the modes. A mode is a code: its tag times 512, and its delimiter, which is twice the hash count and 1 more for a single
// quote. The code 0 is no mode.
pub const LITERAL: u16 = 1;

pub const TEMPLATE_EXPR: u16 = 2;

pub const TEMPLATE_EXPR_INLINE_MAP: u16 = 3;

pub const TEMPLATE_EXPR_FORMAT: u16 = 4;

pub const RAW_START: u16 = 5;

pub const RAW_END: u16 = 6;

// A delimiter's quote, lexer.rs `StringQuote::as_char`.
pub fn quote_of(delimiter: u16) -> u32
    ensures { result ≡ quote_of delimiter }
{
    if delimiter % 2 == 0 {
        return 34;
    }
    39
}

pub fn hash_count_of(delimiter: u16) -> usize
    ensures { result ≡ hash_count_of delimiter }
{
    (delimiter / 2) as usize
}

// lexer.rs `string_mode_stack`.
#[derive(Drop)]
pub struct Modes {
    pub codes: [u16; 64],
    pub depth: usize,
}

// What the read step takes and hands back: all of the state but the stack, with copies of its depth and of the code on top.
#[derive(Clone, Copy)]
pub struct Lexer {
    pub place: Place,
    pub depth: usize,
    pub indent: u32,
    pub mode: u16,
    pub previous_token: u8,
}

// The state as a whole.
#[derive(Drop)]
pub struct State {
    pub lexer: Lexer,
    pub modes: Modes,
}

// What becomes of the modes.
#[derive(Clone, Copy)]
pub enum Change {
    Keep,
    Push(u16),
    Pop,
    // RawStart by RawEnd, which is no push: it is possible at depth 64 too.
    Replace(u16),
}

// What a `consume_*` makes: the token, the lexer after it, and what becomes of the modes.
#[derive(Clone, Copy)]
pub struct Taken {
    pub token: Token,
    pub lexer: Lexer,
    pub change: Change,
}

impl Lexer {
    pub fn new() -> Lexer
        ensures { result ≡ start_lexer }
    {
        Lexer {
            place: Place::new(),
            indent: 0,
            previous_token: kinds::NO_TOKEN,
            depth: 0,
            mode: 0,
        }
    }

    fn at_place(self, place: Place) -> Lexer
        ensures { result ≡ at_place place self }
    {
        Lexer {
            place,
            indent: self.indent,
            previous_token: self.previous_token,
            depth: self.depth,
            mode: self.mode,
        }
    }

    // Where the next token begins.
    pub fn reach(self) -> Reach
        ensures { result ≡ reach_of self }
    {
        self.place.reach()
    }

    // Along the line by ASCII characters, whose bytes are their columns.
    pub fn advance_line(self, char_bytes: usize) -> Lexer
        requires self_bound { ((reach_of self).byte.0 ≤ source_most) × (char_bytes ≤ source_most) }
        requires self_bound_2 { (reach_of self).position.column.0 ≤ column_most }
        ensures { result ≡ advanced_line char_bytes self }
    {
        self.advance_line_utf8(char_bytes, char_bytes as u32)
    }

    // Along the line by characters of so many bytes and so many columns.
    pub fn advance_line_utf8(self, char_bytes: usize, char_count: u32) -> Lexer
        requires self_bound { ((reach_of self).byte.0 ≤ source_most) × (char_bytes ≤ source_most) }
        requires self_bound_2 { ((reach_of self).position.column.0 ≤ column_most) × (char_count ≤ column_most) }
        ensures { result ≡ advanced_line_utf8 char_bytes char_count self }
    {
        self.at_place(self.place.advance_line_utf8(char_bytes, char_count))
    }

    pub fn advance_to_position(self, end: Reach) -> Lexer
        ensures { result ≡ advanced_to end self }
    {
        self.at_place(self.place.advance_to_position(end))
    }

    // The indent is 0 again where a token is read after NewLine.
    pub fn settle(mut self) -> Lexer
        ensures { result ≡ settled self }
    {
        if self.previous_token == kinds::NEW_LINE {
            self.indent = 0;
            return self;
        }
        self
    }

    // Whitespace at the start and after NewLine is the indent.
    pub fn indent_by(mut self, count: u32) -> Lexer
        ensures { result ≡ indented count self }
    {
        if self.previous_token == kinds::NEW_LINE || self.previous_token == kinds::NO_TOKEN {
            self.indent = count;
            return self;
        }
        self
    }

    pub fn remember(mut self, kind: u8) -> Lexer
        ensures { result ≡ remembered kind self }
    {
        self.previous_token = kind;
        self
    }

    // The token of so many ASCII bytes.
    pub fn token(self, kind: u8, char_bytes: usize) -> Taken
        requires self_bound { ((reach_of self).byte.0 ≤ source_most) × (char_bytes ≤ source_most) }
        requires self_bound_2 { (reach_of self).position.column.0 ≤ column_most }
        ensures { result ≡ token_along kind char_bytes self }
    {
        Taken {
            token: token_of(kind),
            lexer: self.advance_line(char_bytes),
            change: Change::Keep,
        }
    }

    // The token that reaches so far.
    pub fn token_to(self, kind: u8, end: Reach) -> Taken
        ensures { result ≡ token_to kind end self }
    {
        Taken {
            token: token_of(kind),
            lexer: self.advance_to_position(end),
            change: Change::Keep,
        }
    }

    // The Error that stands still.
    pub fn stuck(self) -> Taken
        ensures { result ≡ stuck_at self }
    {
        Taken {
            token: token_of(kinds::ERROR),
            lexer: self,
            change: Change::Keep,
        }
    }

    // lexer.rs `string_mode_stack.push(..)`
    pub fn push(mut self, codes: &mut [u16; 64], code: u16) -> Lexer
        requires { self.depth < 64 }
        ensures { state_of result codes.new ≡ pushed code (state_of self codes.old) }
    {
        codes[self.depth] = code;
        self.depth += 1;
        self.mode = code;
        self
    }

    // lexer.rs `string_mode_stack.pop()`
    pub fn pop(mut self, codes: &[u16; 64]) -> Lexer
        requires { self.depth ≤ 64 }
        ensures { state_of result codes.now ≡ popped (state_of self codes.now) }
    {
        if self.depth < 2 {
            self.depth = 0;
            self.mode = 0;
            return self;
        }
        self.mode = codes[self.depth - 2];
        self.depth -= 1;
        self
    }

    // A pop and a push at once.
    pub fn replace(mut self, codes: &mut [u16; 64], code: u16) -> Lexer
        requires { self.depth ≤ 64 }
        ensures { state_of result codes.new ≡ replaced code (state_of self codes.old) }
    {
        if self.depth == 0 {
            return self.push(codes, code);
        }
        codes[self.depth - 1] = code;
        self.mode = code;
        self
    }

    // The modes are changed as a token asked for.
    pub fn apply(self, codes: &mut [u16; 64], change: Change) -> Lexer
        requires { Fits change (state_of self codes.old) }
        ensures { state_of result codes.new ≡ changed_by change (state_of self codes.old) }
    {
        match change {
            Change::Keep => self,
            Change::Push(code) => self.push(codes, code),
            Change::Pop => self.pop(codes),
            Change::Replace(code) => self.replace(codes, code),
        }
    }
}

impl State {
    pub fn new() -> State
        ensures { result ≡ start_state }
    {
        State {
            lexer: Lexer::new(),
            modes: Modes {
                codes: [0u16; 64],
                depth: 0,
            },
        }
    }
}
