// Format options with their pool: string_format_options.rs, `StringFormatOptions::parse`, over lent rows.
//
// The Rust adds strings to its pool while it reads. Here the format string is read first (the crate `format`), and then its strings are added,
// of which there are at most two: UTF-8 and the pool's fitness are asked once, before. An addition that finds no room ends the parse before anything else that was wrong, as in the Rust, where
// it comes first. What the one pass does is the definition (specs/), and that the two stages are the same is proved.
#![tactic(auto)]

pub mod answer;
pub mod numbers;

ghost use Rattle.std.specs.Prelude.{◌≡◌};
ghost use Rattle.format.specs.Parse.{add_fill, add_part, FillIn};
ghost use Rattle.parse.specs.declared.ParseError.TheVariants.{Refused};
ghost use Rattle.parse.specs.Call.{pooled, adding_after, add_to, error_of, answer_of, Parses};
ghost use Rattle.parse.specs.Plan.{input_of, plan_with, plan_of, CanAdd, is_adding, fill_string, CanPlan, add_plan, end_by};

use format::{FormatRead, read_format};
use format_options::{FormatError, Options, Part};
use input::{FORMAT_MOST, Refusal};
use pool::{AddError, Added};
use pool_rows::Counts;

// What a parse reads: the options, and the fill's index in the pool, if there is a fill.
#[derive(Clone, Copy, Debug, PartialEq, Eq)]
pub struct Parsed {
    pub options: Options,
    pub index: Option<u32>,
}

// What a parse refuses (document 01, "Refusal numbers"; document 02, C-3 and C-8).
#[derive(Clone, Copy, Debug, PartialEq, Eq)]
pub enum ParseError {
    // Refusals 1 (the format string is over 65,535 bytes), 17, 2, 3 and 15: they come before any work.
    Refused(Refusal),
    // Refusal 8: the pool is unfit.
    BadState,
    // Refusal 10, with the code point.
    ExpectedNumber(u32),
    // Refusal 11, with the first value over 4,294,967,295.
    FormatNumberIsTooLarge(u64),
    // Refusal 12, with the code point.
    UnexpectedToken(u32),
    // Refusal 13: a string is absent from the pool and has no room there.
    PoolFull,
}

impl From<Refusal> for ParseError {
    ghost from_gives = { λ r e. e ≡ Refused r };

    fn from(r: Refusal) -> ParseError {
        ParseError::Refused(r)
    }
}

// The numbers that a parse goes by: the edition of the cluster rules, and what is in use of the pool.
#[derive(Clone, Copy)]
pub struct Terms {
    pub edition: u32,
    pub counts: Counts,
}

// The answer, and the pool's counts after it.
#[derive(Clone, Copy)]
pub struct After {
    pub answer: Result<Parsed, ParseError>,
    pub counts: Counts,
}

// What has been added so far: the pool's counts, the index that the last addition answered, and whether one found no room.
#[derive(Clone, Copy)]
pub struct Adding {
    pub counts: Counts,
    pub index: Option<u32>,
    pub full: bool,
}

// What is to be added: at most two strings, one after the other, to a pool to which none is added yet.
#[derive(Clone, Copy)]
pub struct Plan {
    pub first: Option<Part>,
    pub second: Option<Part>,
    pub none: Adding,
}

// Reads a format string, for a pool that is fit or not: what is known before the pool is written to. Refused are a format string that is too long, then a number that is no edition, then a
// table that is unfit, then bytes that are wrong or cut, then a pool that is unfit.
pub fn read(format: &[u8], table: &[u32], terms: Terms, fit: bool) -> Result<FormatRead, ParseError>
    ensures { result ≡ input_of format.now table.now terms.edition fit }
{
    let edition = terms.edition;
    input::check_input(format, table, edition, FORMAT_MOST)?;
    if fit {
        return Ok(read_format(format, table, edition));
    }
    Err(ParseError::BadState)
}

// A plan with these strings.
fn plan_with(first: Option<Part>, second: Option<Part>, counts: Counts) -> Plan
    ensures { result ≡ plan_with first second counts }
{
    Plan {
        first,
        second,
        none: Adding {
            counts,
            index: None,
            full: false,
        },
    }
}

// The plan: the strings of the reading. A refusal adds nothing.
pub fn plan_of(input: Result<FormatRead, ParseError>, terms: Terms) -> Plan
    ensures { result ≡ plan_of input terms.counts }
{
    match input {
        Ok(read) => plan_with(read.added.first, read.added.second, terms.counts),
        Err(_) => plan_with(None, None, terms.counts),
    }
}

// Whether a fill is to be added: not after an addition without room.
pub fn is_adding(fill: Option<Part>, adding: Adding) -> bool
    ensures { result ≡ is_adding fill adding }
{
    fill.is_some() && !adding.full
}

// The string of a fill.
pub fn string_of<'a>(format: &'a [u8], fill: Option<Part>) -> &'a [u8]
    requires { FillIn format.now fill }
    ensures { result.now ≡ fill_string format.now fill }
{
    match fill {
        Some(part) => &format[part.place..part.place + part.len],
        None => &format[0..0],
    }
}

// What has been added, after an addition that was refused: only that there was no room is kept.
fn after_error(adding: Adding, error: AddError) -> Adding
    ensures { result ≡ adding_after adding (Err error) }
{
    match error {
        AddError::PoolFull => Adding {
            full: true,
            ..adding
        },
        AddError::BadUtf8(_) => adding,
        AddError::CutUtf8(_) => adding,
        AddError::BadState => adding,
    }
}

// What has been added, after an addition that answered so.
pub fn after_added(adding: Adding, added: Result<Added, AddError>) -> Adding
    ensures { result ≡ adding_after adding added }
{
    match added {
        Ok(added) => Adding {
            counts: added.counts,
            index: Some(added.index),
            full: false,
        },
        Err(error) => after_error(adding, error),
    }
}

// Adds a fill, if there is one and all before it had room.
fn add_fill(
    format: &[u8],
    fill: Option<Part>,
    bytes: &mut [u8],
    entries: &mut [u32],
    adding: Adding,
) -> Adding
    requires { CanAdd format.now (pooled bytes.old entries.old adding) fill }
    ensures { pooled bytes.new entries.new result
        ≡ add_fill (add_part format.now add_to) (pooled bytes.old entries.old adding) fill }
{
    if is_adding(fill, adding) {
        let added = pool::add_to_fit(string_of(format, fill), bytes, entries, adding.counts);
        return after_added(adding, added);
    }
    adding
}

// Adds the strings of a plan, one after the other.
fn add_both(format: &[u8], plan: Plan, bytes: &mut [u8], entries: &mut [u32]) -> Adding
    requires { CanPlan format.now plan bytes.old entries.old }
    ensures { pooled bytes.new entries.new result ≡ add_plan format.now plan bytes.old entries.old }
{
    let one = add_fill(format, plan.first, bytes, entries, plan.none);
    add_fill(format, plan.second, bytes, entries, one)
}

// An error of the reading, under the documents' name.
fn error_of(error: FormatError) -> ParseError
    ensures { result ≡ error_of error }
{
    match error {
        FormatError::ExpectedNumber(code) => ParseError::ExpectedNumber(code),
        FormatError::TooLarge(value) => ParseError::FormatNumberIsTooLarge(value),
        FormatError::UnexpectedToken(code) => ParseError::UnexpectedToken(code),
    }
}

// The answer, from how the reading ended and what was added.
pub fn answer_of(
    options: Options,
    outcome: Result<(), FormatError>,
    index: Option<u32>,
    full: bool,
) -> Result<Parsed, ParseError>
    ensures { result ≡ answer_of options outcome index full }
{
    if full {
        return Err(ParseError::PoolFull);
    }
    match outcome {
        Ok(()) => Ok(Parsed { options, index }),
        Err(error) => Err(error_of(error)),
    }
}

// The answer and the counts, once all is added.
pub fn end_by(input: Result<FormatRead, ParseError>, two: Adding) -> After
    ensures { result ≡ end_by input two }
{
    match input {
        Ok(read) => After {
            answer: answer_of(read.options, read.outcome, two.index, two.full),
            counts: two.counts,
        },
        Err(error) => After {
            answer: Err(error),
            counts: two.counts,
        },
    }
}

// Parses a format string, by the cluster rules of edition 1 (without GB9c) or 2 (with it): its options, with the fill's index in the pool.
// Refused are a format string that is too long, then a number that is no edition, then a table that is unfit, then bytes that are wrong or cut,
// then a pool that is unfit, each before a word is written; then what the Rust refuses, and a string without room. Strings added before that
// stay.
pub fn parse(
    format: &[u8],
    table: &[u32],
    edition: u32,
    bytes: &mut [u8],
    entries: &mut [u32],
    counts: Counts,
) -> After
    ensures { Parses format.now table.now edition bytes.old entries.old counts
        bytes.new entries.new result }
{
    let terms = Terms { edition, counts };
    let fit = pool_rows::is_pool_fit(bytes, entries, counts);
    let input = read(format, table, terms, fit);
    let plan = plan_of(input, terms);
    let two = add_both(format, plan, bytes, entries);
    end_by(input, two)
}
