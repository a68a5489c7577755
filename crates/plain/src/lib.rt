// A token that a leaf of the fast engine knows whole: its kind and how many ASCII bytes it has, all of them on this line. It knows no source, no
// lists and no classes of bytes.
#![tactic(auto)]

ghost use Rattle.std.specs.Prelude.{◌≡◌};
ghost use Rattle.token.specs.Kind.{error};

use token::kinds;

// The kind Error says that none was found.
#[derive(Clone, Copy)]
pub struct Plain {
    pub kind: u8,
    pub len: usize,
}

// No token was found.
pub fn none() -> Plain
    ensures { result.kind ≡ error }
{
    Plain {
        kind: kinds::ERROR,
        len: 0,
    }
}
