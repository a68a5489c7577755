// Walking a list, of either layout.
ghost use Rattle.cursor_numbers.specs.Cursors.{NextIs, PeekIs, LookAheadIs};

// `koto_next::koto_next` for C.
#[unsafe(no_mangle)]
pub extern "C" fn koto_next(
    list: &[u32],
    taken: &mut usize,
    queued: &mut usize,
    count: usize,
    status: u32,
    shown: &mut u32,
    record: &mut [u32; 10],
    place: &mut usize,
) -> u32
    ensures { NextIs list.now taken.old queued.old count status
        taken.new queued.new shown.new «record».new place.new result }
{
    koto_next::koto_next(list, taken, queued, count, status, shown, record, place)
}

// `koto_peek::koto_peek` for C.
#[unsafe(no_mangle)]
pub extern "C" fn koto_peek(
    list: &[u32],
    taken: usize,
    queued: &mut usize,
    count: usize,
    status: u32,
    n: usize,
    shown: &mut u32,
    record: &mut [u32; 10],
    place: &mut usize,
) -> u32
    ensures { PeekIs list.now taken queued.old count status n
        queued.new shown.new «record».new place.new result }
{
    koto_peek::koto_peek(list, taken, queued, count, status, n, shown, record, place)
}

// `koto_look_ahead::koto_look_ahead` for C.
#[unsafe(no_mangle)]
pub extern "C" fn koto_look_ahead(
    list: &[u32],
    taken: usize,
    queued: &mut usize,
    count: usize,
    status: u32,
    n: usize,
    shown: &mut u32,
    record: &mut [u32; 10],
    place: &mut usize,
) -> u32
    ensures { LookAheadIs list.now taken queued.old count status n
        queued.new shown.new «record».new place.new result }
{
    koto_look_ahead::koto_look_ahead(list, taken, queued, count, status, n, shown, record, place)
}
