// Replays recorded answers of the Rust with its real Unicode crates to `next` and `peek` (data/walks.txt; tools/README.md says how it was made),
// after a scan with the full table: the record of each call, nothing or its refusal, and how many tokens are queued at the end. Then a file with
// one wrong line, so that a difference is seen to be reported.
#![tactic(auto)]

use cursor::{Cursor, Status};
use lines::Fields;
use reading::{Scan, ScanError};
use rows::Row;
use std::io;
use walking::Refusal;

// Whether the next fields are what is said of a call: 1 and a record, 0 for nothing, or 2 and the number and place of a refusal.
fn same_what(fields: &mut Fields, what: Result<Option<Row>, Refusal>) -> bool {
    match what {
        Ok(Some(row)) => fields.same(1) && fields.all_same(&printing::numbers(row)),
        Ok(None) => fields.same(0),
        Err(refused) => {
            fields.same(2) && fields.same(refused.number as usize) && fields.same(refused.place)
        }
    }
}

// Whether the fields `COUNT CALL ANSWER CALL ANSWER .. QUEUED` are what the calls say over a list, from a cursor on.
fn walk_agrees(mut fields: Fields, list: &[u32], start: Cursor) -> bool {
    let mut cursor = start;
    for _ in 0..fields.number() {
        let told = walking::ask(list, cursor, walking::call_at(fields.word(), 0));
        let what = told.what;
        cursor = told.cursor;
        if !same_what(&mut fields, what) {
            return false;
        }
    }
    fields.same(cursor.queued)
}

// The same over the list of a scan. No line has a source that a scan refuses.
fn scan_agrees(fields: Fields, list: &[u32], scanned: Result<Scan, ScanError>) -> bool {
    match scanned {
        Ok(Scan::End { count, .. }) => {
            walk_agrees(fields, list, walking::start(count, Status::End))
        }
        Ok(Scan::Stuck { count, .. }) => {
            walk_agrees(fields, list, walking::start(count, Status::Stuck))
        }
        Err(_) => false,
    }
}

// Whether the line `HEX COUNT CALL ANSWER CALL ANSWER .. QUEUED` is what the calls say after a scan.
fn agrees(line: &[u8], table: &[u32]) -> bool {
    let mut fields = Fields::of(line);
    let mut buffer = lines::buffer();
    let script = fields.hex(&mut buffer);
    let mut list = replay_rows::list_buffer();
    let scanned = scan::scan(script, table, input::WITH_GB9C, &mut list);
    scan_agrees(fields, &list, scanned)
}

fn main(rt: HostRuntime) -> io::Result<()> {
    let Some(table) = tables::load_table(&rt, "full.kpt")? else {
        return Ok(());
    };
    lines::replay(&rt, "walks.txt", |line| agrees(line, &table))?;
    lines::replay(&rt, "wrong.txt", |line| agrees(line, &table))
}
