// The state of a reading: the locals of `StringFormatOptions::parse` (string_format_options.rs), the strings that it would add to its pool,
// and what each arm does to them. Left out: the format string, and so how far an arm goes.
#![tactic(auto)]

ghost use Rattle.std.specs.Prelude.{◌≡◌, ◌+◌, ◌≤◌};
ghost use Rattle.base.specs.Refusal.{format_most};
ghost use Rattle.format_options.specs.Options.{with_alignment, with_representation};
ghost use Rattle.format_options.specs.Letters.{char_to_alignment};
ghost use Rattle.format_number.specs.Number.{digits_of};
ghost use Rattle.format_arms.specs.Arms.{min_width, end};
ghost use Rattle.format_state.specs.State.{keep, start_parsing, goes_to, goes_filled, goes_numbered, number_to, fails_with};

use format_arms::Position;
use format_number::Number;
use format_options::letters::char_to_alignment;
use format_options::{FormatError, Options, Part, Representation};

// The strings to add, one after the other. What is added after the first is "0", so the last zero stands for all of them.
#[derive(Clone, Copy, Debug, PartialEq, Eq)]
pub struct Strings {
    pub first: Option<Part>,
    pub second: Option<Part>,
}

// The locals of `parse`, where the next character stands, and the outcome, which is fine until an arm fails.
//
// Q. Why is this no enum, of a state to go on with or an error? A. LLVM lays the variants over each other, and the state would go through
// memory at every turn.
#[derive(Clone, Copy, Debug, PartialEq, Eq)]
pub struct Parsing {
    pub position: Position,
    pub result: Options,
    pub at: usize,
    pub added: Strings,
    pub outcome: Result<(), FormatError>,
}

impl Strings {
    // One more string.
    fn keep(self, part: Part) -> Strings
        ensures { result ≡ keep self part }
    {
        match self.first {
            Some(_) => Strings {
                second: Some(part),
                ..self
            },
            None => Strings {
                first: Some(part),
                second: None,
            },
        }
    }
}

impl Parsing {
    // Before the first character.
    pub fn new() -> Parsing
        ensures { result ≡ start_parsing }
    {
        Parsing {
            position: Position::Start,
            result: Options::new(),
            at: 0,
            added: Strings {
                first: None,
                second: None,
            },
            outcome: Ok(()),
        }
    }

    // On to the character at `at`.
    fn go(self, res: Options, position: Position, at: usize) -> Parsing
        ensures { result ≡ goes_to res position at self.added }
    {
        Parsing {
            position,
            result: res,
            at,
            outcome: Ok(()),
            ..self
        }
    }

    // The same, with what stands from here to `end` as the fill, which is added.
    pub fn go_filled(self, res: Options, position: Position, end: usize, at: usize) -> Parsing
        requires { self.at ≤ end }
        ensures { result ≡ goes_filled self res position end at }
    {
        let fill = Part {
            place: self.at,
            len: end - self.at,
        };
        Parsing {
            position,
            result: res.with_fill(fill),
            at,
            added: self.added.keep(fill),
            outcome: Ok(()),
        }
    }

    // The arm of a fill character and the sign after it, which stands at `next`.
    pub fn fill_sign(self, sign: u32, next: usize) -> Parsing
        requires { (self.at ≤ next) × (next ≤ format_most) }
        ensures { result ≡ goes_filled self (with_alignment (char_to_alignment sign) self.result) min_width next (next + 1) }
    {
        let alignment = char_to_alignment(sign);
        self.go_filled(
            self.result.with_alignment(alignment),
            Position::MinWidth,
            next,
            next + 1,
        )
    }

    // The arm of a sign.
    pub fn align(self, sign: u32, next: usize) -> Parsing
        ensures { result ≡ goes_to (with_alignment (char_to_alignment sign) self.result) min_width next self.added }
    {
        let alignment = char_to_alignment(sign);
        self.go(
            self.result.with_alignment(alignment),
            Position::MinWidth,
            next,
        )
    }

    // On to the character at `next`, with a precision, or else with a width.
    fn go_numbered(self, is_precision: bool, n: u32, next: usize) -> Parsing
        ensures { result ≡ goes_numbered self is_precision n next }
    {
        if is_precision {
            return self.go(self.result.with_precision(n), Position::Type, next);
        }
        self.go(self.result.with_width(n), Position::Precision, next)
    }

    // The arms of a precision and of a width, by what `consume_u32` answered, whose digits after the first stand from `at` on.
    //
    // Q. Why is it not asked here? A. LLVM inlines what is called once: a reader of digits that both arms call would have the state go through
    // memory.
    pub fn take_number(
        self,
        is_precision: bool,
        consumed: Result<Number, FormatError>,
        at: usize,
    ) -> Parsing
        requires { (digits_of consumed ≤ format_most) × (at ≤ format_most) }
        ensures { result ≡ number_to self is_precision at consumed }
    {
        match consumed {
            Ok(number) => self.go_numbered(is_precision, number.n, at + number.digits),
            Err(error) => self.fail(error),
        }
    }

    // The arms of the representations.
    pub fn represent(self, representation: Representation, next: usize) -> Parsing
        ensures { result ≡ goes_to (with_representation representation self.result) end next self.added }
    {
        self.go(
            self.result.with_representation(representation),
            Position::End,
            next,
        )
    }

    // The arm fails, and the rest stays as it is.
    pub fn fail(self, error: FormatError) -> Parsing
        ensures { result ≡ fails_with self error }
    {
        Parsing {
            outcome: Err(error),
            ..self
        }
    }
}
