// The class of each byte, for the engine that goes by a table (specs/Classes). It knows no characters, no tokens and no states.
//
// The row is a constant, which would be built anew at each use where it is indexed; so a caller keeps `classes()` in a local and lends it.
#![tactic(auto)]

mod tables;

ghost use Rattle.std.specs.Prelude.{◌≡◌, ◌<◌, length, get_or};
ghost use Rattle.classes.specs.Classes.{class_of, ClassTable};

// The class of every byte.
pub fn classes() -> [u8; 256]
    ensures { ClassTable result }
{
    tables::CLASSES
}

// The class of the byte at `at`.
pub fn class_at(source: &[u8], classes: &[u8; 256], at: usize) -> u8
    requires { (at < length source.now) × ClassTable classes.now }
    ensures { result ≡ class_of (get_or source.now at 0) }
{
    let b = source[at] as usize;
    classes[b]
}
