// Replays first clusters, by Unicode's published tests and random texts, with the full table (data/clusters.txt and data/full.kpt;
// tools/README.md says how they were made); and texts on which the two editions of the cluster rules differ, in edition 1 (data/older.txt).
// Then a file with one wrong line, so that a difference is seen to be reported.
#![tactic(auto)]

use lines::Fields;
use std::io;

// Whether the line `HEX LENGTH` has the length of the first cluster.
fn agrees(line: &[u8], table: &[u32], edition: u32) -> bool {
    let mut fields = Fields::of(line);
    let mut buffer = lines::buffer();
    match cluster::first_cluster(fields.hex(&mut buffer), table, edition) {
        Ok(length) => fields.same(length),
        Err(_) => false,
    }
}

fn main(rt: HostRuntime) -> io::Result<()> {
    let Some(table) = tables::load_table(&rt, "full.kpt")? else {
        return Ok(());
    };
    lines::replay(
        &rt,
        "clusters.txt",
        |line| agrees(line, &table, input::WITH_GB9C),
    )?;
    lines::replay(
        &rt,
        "older.txt",
        |line| agrees(line, &table, input::WITHOUT_GB9C),
    )?;
    lines::replay(
        &rt,
        "wrong.txt",
        |line| agrees(line, &table, input::WITH_GB9C),
    )
}
