// The values of string_format_options.rs, for whoever reads, writes or applies format options: `StringFormatOptions` with the types of its
// fields, the numbers of its enums, and the errors of a reading. What a single character means is the module `letters`.
// Left out: reading a format string, the pool, the messages, the conversion from u8.
#![tactic(auto)]

pub mod letters;

ghost use Rattle.std.specs.Prelude.{◌≡◌};
ghost use Rattle.format_options.specs.Options.{alignment_number, representation_number};
ghost use Rattle.format_options.specs.Options.{no_options, with_alignment, with_width, with_precision, with_representation, with_fill};

// `StringAlignment`
#[derive(Clone, Copy, Debug, PartialEq, Eq)]
pub enum Alignment {
    Default,
    Left,
    Center,
    Right,
}

// `StringFormatRepresentation`
#[derive(Clone, Copy, Debug, PartialEq, Eq)]
pub enum Representation {
    Debug,
    HexLower,
    HexUpper,
    Binary,
    Octal,
    ExpLower,
    ExpUpper,
}

// `StringAlignment as u8`
pub fn alignment_number(alignment: Alignment) -> u32
    ensures { result ≡ alignment_number alignment }
{
    match alignment {
        Alignment::Default => 0,
        Alignment::Left => 1,
        Alignment::Center => 2,
        Alignment::Right => 3,
    }
}

// `StringFormatRepresentation as u8`
pub fn representation_number(representation: Representation) -> u32
    ensures { result ≡ representation_number representation }
{
    match representation {
        Representation::Debug => 0,
        Representation::HexLower => 1,
        Representation::HexUpper => 2,
        Representation::Binary => 3,
        Representation::Octal => 4,
        Representation::ExpLower => 5,
        Representation::ExpUpper => 6,
    }
}

// A part of the format string, in bytes.
#[derive(Clone, Copy, Debug, PartialEq, Eq)]
pub struct Part {
    pub place: usize,
    pub len: usize,
}

// `StringFormatOptions`. The fill "0" is the part that is its zero.
#[derive(Clone, Copy, Debug, PartialEq, Eq)]
pub struct Options {
    pub alignment: Alignment,
    pub width: Option<u32>,
    pub precision: Option<u32>,
    pub representation: Option<Representation>,
    pub fill: Option<Part>,
}

impl Options {
    // `Self::default()`
    pub fn new() -> Options
        ensures { result ≡ no_options }
    {
        Options {
            alignment: Alignment::Default,
            width: None,
            precision: None,
            representation: None,
            fill: None,
        }
    }

    // `result.alignment = ..`
    pub fn with_alignment(self, alignment: Alignment) -> Options
        ensures { result ≡ with_alignment alignment self }
    {
        Options { alignment, ..self }
    }

    // `result.min_width = Some(..)`
    pub fn with_width(self, n: u32) -> Options
        ensures { result ≡ with_width n self }
    {
        Options {
            width: Some(n),
            ..self
        }
    }

    // `result.precision = Some(..)`
    pub fn with_precision(self, n: u32) -> Options
        ensures { result ≡ with_precision n self }
    {
        Options {
            precision: Some(n),
            ..self
        }
    }

    // `result.representation = Some(..)`
    pub fn with_representation(self, representation: Representation) -> Options
        ensures { result ≡ with_representation representation self }
    {
        Options {
            representation: Some(representation),
            ..self
        }
    }

    // `result.fill_character = Some(..)`
    pub fn with_fill(self, part: Part) -> Options
        ensures { result ≡ with_fill part self }
    {
        Options {
            fill: Some(part),
            ..self
        }
    }
}

// The errors of `StringFormatError` that a reading ends with: with its code point, or with the first value that is too large.
#[derive(Clone, Copy, Debug, PartialEq, Eq)]
pub enum FormatError {
    ExpectedNumber(u32),
    TooLarge(u64),
    UnexpectedToken(u32),
}
