// The table that a replay program lends to what it replays, read from its file. This crate knows nothing of what is compared.
#![tactic(auto)]

ghost use Rattle.std.specs.Prelude.{IfOk, IfSome};
ghost use Rattle.fitness.specs.Fit.{FitTable};
ghost use Rattle.lines.specs.Counts.{IsPrefixLen};
ghost use Rattle.tables.specs.Tables.{TableIn};

use std::io;
use std::rt::Files;
use table_file::answer;

// As many numbers as the longest table has.
const TABLE_MOST: usize = 8000;

// Reads a table file into the start of the row, and answers how many numbers it has; 0 where it is refused.
fn table_in(file: &[u8], row: &mut [u32]) -> usize
    ensures prefix_len { IsPrefixLen result row.new }
    ensures table_in { TableIn row.old row.new result }
{
    answer::count_of(table_file::read_table(file, row))
}

// Says how many runs the table of that name has, or that it was refused.
fn print(rt: &impl Print, name: &[u8], count: usize) -> io::Result<()> {
    rt.write_all(name)?;
    if count == 0 {
        return rt.write_all(b": refused\n");
    }
    println!(rt; ": {count} runs")
}

// Reads the table file of that name into the start of the row, and answers how many runs it has; 0 where it is refused. Either is said.
pub fn full_table(
    rt: &(impl Files + Print + Eprint),
    name: &[u8],
    row: &mut [u32],
) -> io::Result<usize>
    ensures prefix_len { IfOk result (λ n. IsPrefixLen n row.new) }
    ensures table_in { IfOk result (λ n. TableIn row.old row.new n) }
{
    let mut file = lines::large_buffer();
    let n = lines::read_file(rt, name, &mut file)?;
    let count = table_in(&file[..n], row);
    print(rt, name, count)?;
    Ok(count)
}

// The table in the file of that name, as `full_table` reads it, where it is not refused.
pub fn load_table(
    rt: &(impl Files + Print + Eprint + AllocGlobal),
    name: &str,
) -> io::Result<Option<Vec<u32>>>
    ensures { IfOk result (λ table. IfSome table (λ row. FitTable row.items)) }
{
    let mut row = vec![in rt.alloc(); 0; TABLE_MOST]?;
    let count = full_table(rt, name.as_bytes(), &mut row)?;
    if count == 0 {
        return Ok(None);
    }
    row.truncate(count);
    Ok(Some(row))
}
