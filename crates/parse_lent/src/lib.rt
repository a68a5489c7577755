// Format options with their pool, the long form: `parse` with a record for each entry of the pool in place of two numbers, and with the
// counts lent. The answers, the bytes and the numbers of the entries are those of the flat call (the crate `parse`), whose plan decides
// everything; the functions over `&mut [Entry]` and `&mut Counts` only read, call and store.
#![tactic(auto)]

ghost use Rattle.std.specs.Prelude.{◌≡◌};
ghost use Rattle.format.specs.Parse.{add_fill, add_part};
ghost use Rattle.pool_rows.specs.Rows.{fit_pool};
ghost use Rattle.pool_lent.specs.Entries.{numbers_of};
ghost use Rattle.parse.specs.Call.{pooled, add_to, Parses};
ghost use Rattle.parse.specs.Plan.{CanAdd, CanPlan, add_plan};
ghost use Rattle.parse_lent.specs.Lent.{ParsesEntries};

use format_options::Part;
use parse::{Adding, After, ParseError, Parsed, Plan, Terms};
use pool_lent::Entry;
use pool_rows::Counts;

// Adds a fill, if there is one and all before it had room.
fn add_fill(
    format: &[u8],
    fill: Option<Part>,
    bytes: &mut [u8],
    entries: &mut [Entry],
    adding: Adding,
) -> Adding
    requires { CanAdd format.now (pooled bytes.old (numbers_of entries.old) adding) fill }
    ensures { pooled bytes.new (numbers_of entries.new) result
        ≡ add_fill (add_part format.now add_to) (pooled bytes.old (numbers_of entries.old) adding) fill }
{
    if parse::is_adding(fill, adding) {
        let string = parse::string_of(format, fill);
        let added = pool_lent::add_to_fit_row(string, bytes, entries, adding.counts);
        return parse::after_added(adding, added);
    }
    adding
}

// Adds the strings of a plan, one after the other.
fn add_both(format: &[u8], plan: Plan, bytes: &mut [u8], entries: &mut [Entry]) -> Adding
    requires { CanPlan format.now plan bytes.old (numbers_of entries.old) }
    ensures { pooled bytes.new (numbers_of entries.new) result
        ≡ add_plan format.now plan bytes.old (numbers_of entries.old) }
{
    let one = add_fill(format, plan.first, bytes, entries, plan.none);
    add_fill(format, plan.second, bytes, entries, one)
}

// Parses a format string with a pool of which it is known whether it is fit. After a refusal the plan is empty, so nothing is written.
fn parse_with(
    format: &[u8],
    table: &[u32],
    fit: bool,
    bytes: &mut [u8],
    entries: &mut [Entry],
    terms: Terms,
) -> After
    requires { fit ≡ fit_pool bytes.old (numbers_of entries.old) terms.counts }
    ensures { Parses format.now table.now terms.edition bytes.old (numbers_of entries.old)
        terms.counts bytes.new (numbers_of entries.new) result }
{
    let input = parse::read(format, table, terms, fit);
    let plan = parse::plan_of(input, terms);
    let two = add_both(format, plan, bytes, entries);
    parse::end_by(input, two)
}

// Parses a format string, with the edition and the counts by value: its options, with the fill's index in the pool. It refuses and writes as
// `parse::parse` does. Whether the pool is fit is asked first, which writes nothing, and told after refusals 1, 17, 2, 3 and 15 (`parse::read`).
pub fn parse_row(
    format: &[u8],
    table: &[u32],
    bytes: &mut [u8],
    entries: &mut [Entry],
    terms: Terms,
) -> After
    ensures { Parses format.now table.now terms.edition bytes.old (numbers_of entries.old)
        terms.counts bytes.new (numbers_of entries.new) result }
{
    let fit = pool_lent::is_pool_fit(bytes, entries, terms.counts);
    parse_with(format, table, fit, bytes, entries, terms)
}

// Parses a format string, by the cluster rules of an edition: its options, with the fill's index in the pool, whose counts are those after the
// additions.
pub fn parse(
    format: &[u8],
    table: &[u32],
    edition: u32,
    bytes: &mut [u8],
    entries: &mut [Entry],
    counts: &mut Counts,
) -> Result<Parsed, ParseError>
    ensures { ParsesEntries format.now table.now edition bytes.old entries.old
        counts.old bytes.new entries.new counts.new result }
{
    let after = parse_row(
        format,
        table,
        bytes,
        entries,
        Terms {
            edition: edition,
            counts: *counts,
        },
    );
    *counts = after.counts;
    after.answer
}
