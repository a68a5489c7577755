// What either desk marks as still used (document 02, C-13): whether the marks are good, and a translation row that carries them. It knows no
// strings and no entries: only how many there are.
#![tactic(auto)]

ghost use Rattle.std.specs.Prelude.{◌≡◌, true, ◌≤◌, length, replicate};
ghost use Rattle.slide.specs.Slide.{headed, gone};
ghost use Rattle.marks.specs.Marks.{all_given, good_marks, marked};

use slide::GONE;

// Whether every mark is an index that was given.
fn are_given(marks: &[u32], n: usize) -> bool
    ensures { result ≡ all_given marks.now n }
{
    marks.iter().all(|&m| (m as usize) < n)
}

// Whether the marks of both desks are indices that were given, and a translation row is long enough.
pub fn are_good(first: &[u32], second: &[u32], moved: &[u32], n: usize) -> bool
    ensures { result ≡ good_marks first.now second.now moved.now n }
{
    if moved.len() < n {
        return false;
    }
    are_given(first, n) && are_given(second, n)
}

// Says `GONE` of the first n entries.
pub fn clear(moved: &mut [u32], n: usize)
    requires { n ≤ length moved.old }
    ensures { moved.new ≡ headed (replicate n gone) moved.old }
{
    moved[..n].fill(GONE);
}

// Says 0 of each mark.
pub fn mark(moved: &mut [u32], marks: &[u32], n: usize)
    requires { (n ≤ length moved.old) × (all_given marks.now n ≡ true) }
    ensures { moved.new ≡ marked moved.old marks.now }
{
    for &m in marks {
        moved[m as usize] = 0;
    }
}
