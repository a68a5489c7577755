// Property tables for C: a check of a table, and a table read from its file.
ghost use Rattle.koto_text.specs.Tables.{CheckTableIs, ReadTableIs};

// Checks a table. Refused with 2 is one that is unfit, at its place.
pub fn koto_check_table(table: &[u32], place: &mut usize) -> u32
    ensures { CheckTableIs table.now place.new result }
{
    let check = fitness::check_table(table);
    *place = fitness::answer::place_of(check);
    fitness::answer::number_of(check)
}

// Reads a table file into the start of the row; the rest of the row stays. Refused are a file that is unfit with 14, then a row that is too
// short with 4, then a table that is unfit with 2; each leaves the whole row.
pub fn koto_read_table(file: &[u8], row: &mut [u32], count: &mut usize, place: &mut usize) -> u32
    ensures { ReadTableIs file.now row.old row.new count.new place.new result }
{
    let read = table_file::read_table(file, row);
    *count = table_file::answer::count_of(read);
    *place = table_file::answer::place_of(read);
    table_file::answer::number_of(read)
}
