// The characters that the lexer and the format options name, by their code points.
pub const TAB: u32 = 9;

pub const LF: u32 = 10;

pub const CR: u32 = 13;

pub const SPACE: u32 = 32;

pub const DOUBLE_QUOTE: u32 = 34;

pub const HASH: u32 = 35;

pub const SINGLE_QUOTE: u32 = 39;

pub const PLUS: u32 = 43;

pub const MINUS: u32 = 45;

pub const DOT: u32 = 46;

pub const ZERO: u32 = 48;

pub const NINE: u32 = 57;

pub const LESS: u32 = 60;

pub const GREATER: u32 = 62;

pub const QUESTION: u32 = 63;

pub const CAPITAL_E: u32 = 69;

pub const CAPITAL_X: u32 = 88;

pub const BACKSLASH: u32 = 92;

pub const CARET: u32 = 94;

pub const UNDERSCORE: u32 = 95;

pub const LETTER_B: u32 = 98;

pub const LETTER_E: u32 = 101;

pub const LETTER_O: u32 = 111;

pub const LETTER_U: u32 = 117;

pub const LETTER_X: u32 = 120;

pub const CURLY_OPEN: u32 = 123;

pub const TILDE: u32 = 126;
