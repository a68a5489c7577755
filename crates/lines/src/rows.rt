// Rows of numbers that a program lends.
ghost use Rattle.std.specs.Prelude.{length};
ghost use Rattle.lines.specs.Counts.{IsPrefixLen};

// The count, or the row's length where that is less: `&row[..within(count, row)]` needs no proof.
pub fn within(count: usize, row: &[u32]) -> usize
    ensures { IsPrefixLen result row.now }
{
    count.min(row.len())
}
