// The first cluster for C.
ghost use Rattle.koto_text.specs.Clusters.{FirstClusterIs};

use cluster::answer;

// The length in bytes of the source's first cluster; no bytes give 0. Refused are a source that is too long with 1, then a number that is no
// edition with 17, then a table that is unfit with 2, then bytes that are wrong with 3 or that the end cuts with 15.
pub fn koto_first_cluster(
    source: &[u8],
    table: &[u32],
    edition: u32,
    len: &mut usize,
    place: &mut usize,
) -> u32
    ensures { FirstClusterIs source.now table.now edition len.new place.new result }
{
    let cluster = cluster::first_cluster(source, table, edition);
    *len = answer::len_of(cluster);
    *place = answer::place_of(cluster);
    answer::number_of(cluster)
}
