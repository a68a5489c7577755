// The kinds of token, in the order of `Token` in lexer.rs and under its names: Error is 0 and Let 80. specs/Kind.antt has the same numbers.

// Errors, blanks, comments, numbers and names
pub const ERROR: u8 = 0;

pub const WHITESPACE: u8 = 1;

pub const NEW_LINE: u8 = 2;

pub const COMMENT_SINGLE: u8 = 3;

pub const COMMENT_MULTI: u8 = 4;

pub const NUMBER: u8 = 5;

pub const ID: u8 = 6;

// Strings; a StringStart also has a detail
pub const STRING_START: u8 = 7;

pub const STRING_END: u8 = 8;

pub const STRING_LITERAL: u8 = 9;

// Symbols
pub const AT: u8 = 10;

pub const COLON: u8 = 11;

pub const COMMA: u8 = 12;

pub const DOT: u8 = 13;

pub const ELLIPSIS: u8 = 14;

pub const FUNCTION: u8 = 15;

pub const ROUND_OPEN: u8 = 16;

pub const ROUND_CLOSE: u8 = 17;

pub const SQUARE_OPEN: u8 = 18;

pub const SQUARE_CLOSE: u8 = 19;

pub const CURLY_OPEN: u8 = 20;

pub const CURLY_CLOSE: u8 = 21;

pub const RANGE: u8 = 22;

pub const RANGE_INCLUSIVE: u8 = 23;

pub const SEMICOLON: u8 = 24;

pub const UNDERSCORE: u8 = 25;

pub const QUESTION_MARK: u8 = 26;

// Operators
pub const ADD: u8 = 27;

pub const SUBTRACT: u8 = 28;

pub const MULTIPLY: u8 = 29;

pub const DIVIDE: u8 = 30;

pub const REMAINDER: u8 = 31;

pub const POWER: u8 = 32;

pub const ASSIGN: u8 = 33;

pub const ADD_ASSIGN: u8 = 34;

pub const SUBTRACT_ASSIGN: u8 = 35;

pub const MULTIPLY_ASSIGN: u8 = 36;

pub const DIVIDE_ASSIGN: u8 = 37;

pub const REMAINDER_ASSIGN: u8 = 38;

pub const POWER_ASSIGN: u8 = 39;

pub const EQUAL: u8 = 40;

pub const NOT_EQUAL: u8 = 41;

pub const GREATER: u8 = 42;

pub const GREATER_OR_EQUAL: u8 = 43;

pub const LESS: u8 = 44;

pub const LESS_OR_EQUAL: u8 = 45;

pub const ARROW: u8 = 46;

// Keywords
pub const AS: u8 = 47;

pub const AND: u8 = 48;

pub const BREAK: u8 = 49;

pub const CATCH: u8 = 50;

pub const CONTINUE: u8 = 51;

pub const DEBUG: u8 = 52;

pub const ELSE: u8 = 53;

pub const ELSE_IF: u8 = 54;

pub const EXPORT: u8 = 55;

pub const FALSE: u8 = 56;

pub const FINALLY: u8 = 57;

pub const FOR: u8 = 58;

pub const FROM: u8 = 59;

pub const IF: u8 = 60;

pub const IMPORT: u8 = 61;

pub const IN: u8 = 62;

pub const LOOP: u8 = 63;

pub const MATCH: u8 = 64;

pub const NOT: u8 = 65;

pub const NULL: u8 = 66;

pub const OR: u8 = 67;

pub const RETURN: u8 = 68;

pub const SELF_: u8 = 69;

pub const SWITCH: u8 = 70;

pub const THEN: u8 = 71;

pub const THROW: u8 = 72;

pub const TRUE: u8 = 73;

pub const TRY: u8 = 74;

pub const UNTIL: u8 = 75;

pub const WHILE: u8 = 76;

pub const YIELD: u8 = 77;

// Reserved keywords
pub const AWAIT: u8 = 78;

pub const CONST: u8 = 79;

pub const LET: u8 = 80;

// The last kind, as a record's number.
pub const KIND_MOST: u32 = 80;

// No token yet: lexer.rs's `previous_token` is None.
pub const NO_TOKEN: u8 = 81;
