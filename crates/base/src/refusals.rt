// Document 01, "Refusal numbers", and those of document 02: each number once, under its name, as in specs/Refusal.antt.
pub const NO_REFUSAL: u32 = 0;

pub const TOO_LONG: u32 = 1;

pub const BAD_TABLE: u32 = 2;

pub const BAD_UTF8: u32 = 3;

pub const LIST_FULL: u32 = 4;

pub const MODES_FULL: u32 = 5;

pub const PEEK_TOO_FAR: u32 = 6;

pub const QUEUE_FULL: u32 = 7;

pub const BAD_STATE: u32 = 8;

pub const BAD_RECORD: u32 = 9;

pub const EXPECTED_NUMBER: u32 = 10;

pub const FORMAT_NUMBER_IS_TOO_LARGE: u32 = 11;

pub const UNEXPECTED_TOKEN: u32 = 12;

pub const POOL_FULL: u32 = 13;

pub const BAD_FILE: u32 = 14;

pub const CUT_UTF8: u32 = 15;

pub const BAD_EDIT: u32 = 16;

pub const BAD_EDITION: u32 = 17;

pub const NO_SUCH_FORMAT: u32 = 18;

pub const NO_ROOM: u32 = 19;

pub const BAD_MARK: u32 = 20;

pub const NOT_IN_PROFILE: u32 = 21;
