// The two layouts of a list: records of eight numbers (crate `rows`) and of five (crate `half_rows`). What stores a record or shows one takes the
// layout as a value, so that one loop scans into either and one look-ahead walks either. It knows no record's numbers.
#![tactic(auto)]

ghost use Rattle.std.specs.Prelude.{◌≡◌, ◌<◌};
ghost use Rattle.rows.specs.First.{Packs};
ghost use Rattle.half_rows.specs.Half.{marked};
ghost use Rattle.layout.specs.Layout.{room_in, put_in, shown_in};

use rows::Row;

#[derive(Clone, Copy)]
pub enum Layout {
    // Document 01: every number of a record.
    Whole,
    // Document 02, C-5: without its start.
    Half,
}

impl Layout {
    // How many records the list has room for.
    pub fn room(self, list: &[u32]) -> usize
        ensures { result ≡ room_in self list.now }
    {
        match self {
            Layout::Whole => rows::room(list),
            Layout::Half => half_rows::room(list),
        }
    }

    // Writes record i; `still` says of an Error that it stands still. Every number of the other records stays.
    pub fn put(self, list: &mut [u32], i: usize, row: Row, still: bool)
        requires { (i < room_in self list.old) × Packs row }
        ensures { list.new ≡ put_in self list.old i (marked row still) }
    {
        match self {
            Layout::Whole => rows::put_row(list, i, row),
            Layout::Half => half_rows::put_half(list, i, row, still),
        }
    }

    // Record i of so many; `None` where it may not be shown (refusal 9).
    pub fn shown(self, list: &[u32], count: usize, i: usize) -> Option<Row>
        requires { i < room_in self list.now }
        ensures { result ≡ shown_in self list.now count i }
    {
        match self {
            Layout::Whole => rows::row_at(list, i),
            Layout::Half => half_rows::half_at(list, count, i),
        }
    }
}
