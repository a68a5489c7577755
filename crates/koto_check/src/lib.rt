// Checking another lexer's list for C (include/koto_lexer.h); the crates `koto_lexer`, `koto_pool` and `koto_pad` have the other calls.
//
// As there, the call takes every input, calls the inner function of its name, and hands its answer out as numbers, all of which every call
// writes. It stands in a crate of its own, so that the scan of `koto_lexer` stays the one reader of tokens there (DECISIONS 37).
#![tactic(auto)]

ghost use Rattle.koto_check.specs.Checks.{CheckListIs};

use foreign::answer;

// Whether list, count and status are those that `koto_scan` leaves for this source: `same` is 1 for a yes, and else 0, and then `differs` is the
// index of the first record that differs, or the smaller count. Refused are, in this order, a source that is too long with 1, an edition that is
// none with 17, a table that is unfit with 2, bytes that are wrong with 3 or cut with 15, a list without room for its count with 8, and a source
// that our scan refuses with 5.
pub fn koto_check_list(
    source: &[u8],
    table: &[u32],
    edition: u32,
    list: &[u32],
    list_count: usize,
    list_status: u32,
    same: &mut u32,
    differs: &mut usize,
    place: &mut usize,
) -> u32
    ensures { CheckListIs source.now table.now edition list.now list_count list_status
        same.new differs.new place.new result }
{
    let checked = foreign::check_list(source, table, edition, list, list_count, list_status);
    *same = answer::same_of(checked);
    *differs = answer::differs_of(checked);
    *place = answer::place_of(checked);
    answer::number_of(checked)
}
