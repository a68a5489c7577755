// Records of one list put into another, number by number: fit or not, they stay as they are.
ghost use Rattle.std.specs.Prelude.{◌≡◌, ◌≤◌};
ghost use Rattle.rows.specs.Row.{room, copy_rows};

use crate::ROW_WORDS;

// Copies the first n records of a list to the start of another. Every number after them stays. By a loop: `copy_from_slice` would have the archive for C
// need memmove, and it needs memcpy and memset alone.
pub fn copy_rows(from: &[u32], to: &mut [u32], n: usize)
    requires { (n ≤ room from.now) × (n ≤ room to.old) }
    ensures { to.new ≡ copy_rows n from.now to.old }
{
    for i in 0..ROW_WORDS * n {
        to[i] = from[i];
    }
}
