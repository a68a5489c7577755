// A line of calls: `n` for `next`, `p3` for `peek(3)` and `l3` for `look_ahead(3)`, with one space between two of them. Decision 27 says which
// lines are malformed.
//
// The line is tested whole, byte by byte, before anything is called.
ghost use Rattle.std.specs.Prelude.{◌≡◌, true, ◌≤◌, length};

// The most bytes of a line.
const LINE_MOST: usize = 200_000;

// The most digits of a call's number: so many always fit 64 bits.
const DIGITS_MOST: u8 = 19;

// Where in a call the test of a line stands.
#[derive(Clone, Copy)]
enum Place {
    // The line is malformed.
    Bad,
    // A call must begin here.
    Begin,
    // After `n`.
    Past,
    // After `p` or `l` and so many digits.
    Digits(u8),
}

// One of the calls.
#[derive(Clone, Copy)]
pub enum Call {
    Next,
    Peek(usize),
    LookAhead(usize),
}

// Where the test stands after the first byte of a call.
fn begun(b: u8) -> Place {
    match b {
        b'n' => Place::Past,
        b'p' | b'l' => Place::Digits(0),
        _ => Place::Bad,
    }
}

// Where it stands after a digit.
fn gone_on(place: Place) -> Place {
    match place {
        Place::Digits(n) if n < DIGITS_MOST => Place::Digits(n + 1),
        _ => Place::Bad,
    }
}

// May a call end where the test stands?
fn is_whole(place: Place) -> bool {
    match place {
        Place::Past => true,
        Place::Digits(n) => 0 < n,
        _ => false,
    }
}

// Where the test stands after one byte more.
fn after(place: Place, b: u8) -> Place {
    if matches!(place, Place::Begin) {
        return begun(b);
    }
    if b == b' ' && is_whole(place) {
        return Place::Begin;
    }
    if b.is_ascii_digit() {
        return gone_on(place);
    }
    Place::Bad
}

// Is this a line of calls? An empty line is: it has none.
pub fn are_calls(line: &[u8]) -> bool
    ensures { result ≡ true → length line.now ≤ 200000 }
{
    if LINE_MOST < line.len() {
        return false;
    }
    if line.is_empty() {
        return true;
    }
    let mut place = Place::Begin;
    for &b in line {
        place = after(place, b);
    }
    is_whole(place)
}

// The call that begins at a place of a line of calls; `next` where none does.
pub fn call_at(line: &[u8], at: usize) -> Call
    ensures { length line.now ≤ at → result ≡ Call.Next }
{
    if line.len() <= at {
        return Call::Next;
    }
    if line[at] == b'p' {
        return Call::Peek(lines::number(line, at + 1));
    }
    if line[at] == b'l' {
        return Call::LookAhead(lines::number(line, at + 1));
    }
    Call::Next
}
