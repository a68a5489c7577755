// An edit of a source (document 02, C-7), told in three numbers: its place, how many bytes are removed there, and how many are put in.
// Whether it leads from one source to another, and where the line begins in which it stands. It knows bytes alone: no UTF-8, no tokens and
// no lists.
#![tactic(auto)]

ghost use Rattle.std.specs.Prelude.{◌≡◌, ◌+◌, ◌≤◌, length};
ghost use Rattle.edit.specs.Edit.{same_run, lengths_fit, edit_fits, start_of_line};

// The byte "\n", behind which a line begins.
const LF: u8 = 10;

// An edit.
#[derive(Clone, Copy)]
pub struct Edit {
    // The byte at which it stands.
    pub place: usize,
    // How many bytes it removes there, and how many it puts in.
    pub removed: usize,
    pub put_in: usize,
}

// Whether n bytes of one row from index i on are those of another from index j on. It reads on after a difference, so that the compiler may
// compare many bytes at once.
fn same_run(a: &[u8], i: usize, b: &[u8], j: usize, n: usize) -> bool
    requires { (i + n ≤ length a.now) × (j + n ≤ length b.now) }
    ensures { result ≡ same_run a.now i b.now j n }
{
    let mut same = true;
    for k in 0..n {
        same &= a[i + k] == b[j + k];
    }
    same
}

// Whether sources of so many bytes may be the old and the new one of the edit. Nothing is added: a sum might not fit.
fn lengths_fit(old: usize, edit: Edit, new: usize) -> bool
    ensures { result ≡ lengths_fit old edit new }
{
    if old < edit.place {
        return false;
    }
    if old - edit.place < edit.removed {
        return false;
    }
    if new < edit.put_in {
        return false;
    }
    new - edit.put_in == old - edit.removed
}

// Whether the edit leads from the old source to the new one.
pub fn edit_fits(old: &[u8], edit: Edit, new: &[u8]) -> bool
    ensures { result ≡ edit_fits old.now edit new.now }
{
    if !lengths_fit(old.len(), edit, new.len()) {
        return false;
    }
    if !same_run(old, 0, new, 0, edit.place) {
        return false;
    }
    let behind = edit.place + edit.removed;
    same_run(
        old,
        behind,
        new,
        edit.place + edit.put_in,
        old.len() - behind,
    )
}

// Where the line begins that has the byte at this place or ends before it: behind the last "\n" before the place, or at 0.
pub fn line_start(source: &[u8], place: usize) -> usize
    requires { place ≤ length source.now }
    ensures { result ≡ start_of_line source.now place }
{
    for at in (0..place).rev() {
        if source[at] == LF {
            return at + 1;
        }
    }
    0
}
