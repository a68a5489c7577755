// Positions (span.rs) and the advance steps of lexer.rs.
//
// A byte offset and a column are two types, so that neither can be added to the other: a character may have three bytes and two
// columns. Only the advance functions turn a count of ASCII bytes into columns, as lexer.rs keeps `advance_line` from
// `advance_line_utf8`. Every step takes the value and hands the next one back. This crate knows no bytes of a source, no characters
// and no tokens. Left out: the orders and the printed forms that Rust derives.
#![tactic(auto)]

ghost use Rattle.std.specs.Prelude.{◌≡◌, ◌≤◌};
ghost use Rattle.base.specs.Refusal.{source_most};
ghost use Rattle.position.specs.Position.{column_most, line_start};
ghost use Rattle.position.specs.Place.{along_by, line_by, reach_of, start_place, advanced_line, advanced_line_utf8, advanced_to_position};

// A byte's place in the source, counting from 0.
#[derive(Clone, Copy)]
pub struct ByteOffset(pub usize);

// A column of a line, counting from 0.
#[derive(Clone, Copy)]
pub struct Column(pub u32);

// A line/column position in a script.
#[derive(Clone, Copy)]
pub struct Position {
    // The position's line, counting from 0.
    pub line: u32,
    // The position's column, counting from 0.
    pub column: Column,
}

// A range in the source code, by its start and its end.
#[derive(Clone, Copy)]
pub struct Span {
    pub start: Position,
    pub end: Position,
}

impl Span {
    // A span with zero size at the start of the given line.
    pub fn line_start(line: u32) -> Span
        ensures { result ≡ line_start line }
    {
        let position = Position {
            line,
            column: Column(0),
        };
        Span {
            start: position,
            end: position,
        }
    }
}

// How far reading has come: the byte before which it stands, and the position there.
#[derive(Clone, Copy)]
pub struct Reach {
    pub byte: ByteOffset,
    pub position: Position,
}

impl Reach {
    // Past characters of so many bytes and so many columns.
    pub fn along(self, char_bytes: usize, char_count: u32) -> Reach
        requires byte_le_source_most { (self.byte.0 ≤ source_most) × (char_bytes ≤ source_most) }
        requires column_le_column_most { (self.position.column.0 ≤ column_most) × (char_count ≤ column_most) }
        ensures { result ≡ along_by char_bytes char_count self }
    {
        Reach {
            byte: ByteOffset(self.byte.0 + char_bytes),
            position: Position {
                line: self.position.line,
                column: Column(self.position.column.0 + char_count),
            },
        }
    }

    // Past so many ASCII characters, whose bytes are their columns.
    pub fn along_ascii(self, char_bytes: usize) -> Reach
        requires byte_le_source_most { (self.byte.0 ≤ source_most) × (char_bytes ≤ source_most) }
        requires column_le_column_most { self.position.column.0 ≤ column_most }
        ensures { result ≡ along_by char_bytes char_bytes self }
    {
        self.along(char_bytes, char_bytes as u32)
    }

    // Past so many bytes, the last of which end a line.
    pub fn next_line(self, char_bytes: usize) -> Reach
        requires byte_le_source_most { (self.byte.0 ≤ source_most) × (char_bytes ≤ source_most) }
        requires line_le_source_most { self.position.line ≤ source_most }
        ensures { result ≡ line_by char_bytes self }
    {
        Reach {
            byte: ByteOffset(self.byte.0 + char_bytes),
            position: Position {
                line: self.position.line + 1,
                column: Column(0),
            },
        }
    }
}

// Where the lexer stands: the bytes of the token read last, from `previous_byte` to `current_byte`, and its span.
#[derive(Clone, Copy)]
pub struct Place {
    pub previous_byte: ByteOffset,
    pub current_byte: ByteOffset,
    pub span: Span,
}

impl Place {
    // The start of a source.
    pub fn new() -> Place
        ensures { result ≡ start_place }
    {
        Place {
            previous_byte: ByteOffset(0),
            current_byte: ByteOffset(0),
            span: Span::line_start(0),
        }
    }

    // Where the next token begins: lexer.rs `current_byte` and `current_position`.
    pub fn reach(self) -> Reach
        ensures { result ≡ reach_of self }
    {
        let current_byte = self.current_byte;
        let end = self.span.end;
        Reach {
            byte: current_byte,
            position: end,
        }
    }

    // lexer.rs `advance_line`: along the line by ASCII characters, whose bytes are their columns.
    pub fn advance_line(self, char_bytes: usize) -> Place
        requires current_byte_bound { (self.current_byte.0 ≤ source_most) × (char_bytes ≤ source_most) }
        requires column_le_column_most { self.span.end.column.0 ≤ column_most }
        ensures { result ≡ advanced_line char_bytes self }
    {
        self.advance_line_utf8(char_bytes, char_bytes as u32)
    }

    // lexer.rs `advance_line_utf8`: along the line by characters of so many bytes and so many columns.
    pub fn advance_line_utf8(self, char_bytes: usize, char_count: u32) -> Place
        requires current_byte_bound { (self.current_byte.0 ≤ source_most) × (char_bytes ≤ source_most) }
        requires column_le_column_most { (self.span.end.column.0 ≤ column_most) × (char_count ≤ column_most) }
        ensures { result ≡ advanced_line_utf8 char_bytes char_count self }
    {
        let current_byte = self.current_byte;
        let start = self.span.end;
        Place {
            previous_byte: current_byte,
            current_byte: ByteOffset(current_byte.0 + char_bytes),
            span: Span {
                start,
                end: Position {
                    line: start.line,
                    column: Column(start.column.0 + char_count),
                },
            },
        }
    }

    // lexer.rs `advance_to_position`: the token read now ends there. (The Rust is given the count of bytes, this the byte itself.)
    pub fn advance_to_position(self, end: Reach) -> Place
        ensures { result ≡ advanced_to_position end self }
    {
        let current_byte = self.current_byte;
        let start = self.span.end;
        let byte = end.byte;
        let position = end.position;
        Place {
            previous_byte: current_byte,
            current_byte: byte,
            span: Span {
                start,
                end: position,
            },
        }
    }
}
