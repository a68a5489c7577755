// What the programs of many cases share, one case a line: a replay says of a file each of the first ten cases that differ, by its line, and how
// many cases there were and agreed; another prints of each case of standard input what it has to.
ghost use Rattle.std.specs.Prelude.{◌≡◌, length, IfOk};

use crate::fields::past;
use crate::files::{self, TEXT_MOST};
use std::io;
use std::rt::Files;

// The cases of a file so far. The counts have 64 bits.
#[derive(Clone, Copy)]
struct Tally {
    agreed: u64,
    differ: u64,
}

impl Tally {
    // How many cases there were.
    fn cases(self) -> u64 {
        self.agreed.wrapping_add(self.differ)
    }

    // Counts the next case, and says its line where it differs, after fewer than ten others.
    fn count(&mut self, rt: &impl Print, name: &str, agrees: bool) -> io::Result<()> {
        if agrees {
            self.agreed = self.agreed.wrapping_add(1);
            return Ok(());
        }
        if self.differ < 10 {
            println!(rt; "{name}: line {} differs", self.cases().wrapping_add(1))?;
        }
        self.differ = self.differ.wrapping_add(1);
        Ok(())
    }

    // Says how many cases there were and agreed.
    fn print(self, rt: &impl Print, name: &str) -> io::Result<()>
        ensures { IfOk result (λ r. r ≡ tt) }
    {
        println!(rt; "{name}: {} cases, {} agreed", self.cases(), self.agreed)
    }
}

// Asks of each line of the file of that name whether its case agrees, and says what came of it. The line is lent with all lines after it.
pub fn replay<F: FnMut(&[u8]) -> bool>(
    rt: &(impl Files + Print + Eprint + AllocGlobal),
    name: &str,
    mut agrees: F,
) -> io::Result<()>
    requires { F.IsAlwaysCallable agrees }
    ensures { IfOk result (λ r. r ≡ tt) }
{
    let text = files::load_file(rt, name, TEXT_MOST)?;
    let mut tally = Tally {
        agreed: 0,
        differ: 0,
    };
    let mut at = 0;
    while at < text.len() {
        tally.count(rt, name, agrees(&text[at..]))?;
        at = past(&text, at, b'\n');
    }
    tally.print(rt, name)
}

// Prints the case of each line of standard input, which is lent with all lines after it.
pub fn print_each<F: FnMut(&[u8]) -> io::Result<()>>(
    rt: &(impl Input + Print + AllocGlobal),
    mut print: F,
) -> io::Result<()>
    requires { F.IsAlwaysCallable print }
    ensures { IfOk result (λ r. r ≡ tt) }
{
    let text = files::load_input(rt)?;
    let mut at = 0;
    while at < text.len() {
        print(&text[at..])?;
        at = past(&text, at, b'\n');
    }
    Ok(())
}
