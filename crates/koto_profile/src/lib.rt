// The scan by the site profile for C (include/koto_lexer.h); the crate `koto_lexer` has the scan itself.
//
// As there, the call takes every input, calls the inner function of its name, and hands its answer out as numbers, all of which every call
// writes.
#![tactic(auto)]

ghost use Rattle.koto_profile.specs.Profiles.{ScanProfileIs};

use profile::answer;

// Scans as `koto_scan` does, with its refusals. Then refused with 21 is a source with a forbidden token, a raw string's start or the "{" of a
// template inside a template: at the index of the first such record; the list keeps the whole scan.
pub fn koto_scan_profile(
    source: &[u8],
    table: &[u32],
    edition: u32,
    list: &mut [u32],
    status: &mut u32,
    count: &mut usize,
    byte: &mut usize,
) -> u32
    ensures { ScanProfileIs source.now table.now edition list.old list.new
        status.new count.new byte.new result }
{
    let profiled = profile::scan_profile(source, table, edition, list);
    *status = answer::status_of(profiled);
    *count = answer::count_of(profiled);
    *byte = answer::place_of(profiled);
    answer::number_of(profiled)
}
