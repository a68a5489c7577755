// Which keyword a name is (lexer.rs `check_keyword!`), for the second engine: by the same contract as the crate `keywords`, with one comparison.
//
// A name's length, first and last byte give it one of 64 places, and no two keywords have the same. At a place stands its keyword's number, whose
// bytes are the keyword's, the lowest first; a name of up to eight bytes has its number by one read of eight. Nothing branches on the name's length
// or on what it is, since a program's names take such branches at random.
#![tactic(auto)]

ghost use Rattle.std.specs.Prelude.{◌≡◌, ◌+◌, ◌*◌, ◌-◌, ◌^◌, ◌≤◌, ◌<◌, length, take, drop};
ghost use Rattle.base.specs.Pick.{pick};
ghost use Rattle.token.specs.Kind.{id};
ghost use Rattle.keywords.specs.Keywords.{keyword_of};
ghost use Rattle.fast_keywords.specs.Slots.{number, place_by, slot_at};

use token::kinds::{
    AND, AS, AWAIT, BREAK, CATCH, CONST, CONTINUE, DEBUG, EXPORT, FALSE, FINALLY, FOR, FROM, ID,
    IF, IMPORT, IN, LET, LOOP, MATCH, NOT, NULL, OR, RETURN, SELF_, SWITCH, THEN, THROW, TRUE, TRY,
    UNTIL, WHILE, YIELD,
};

// What stands at a place: the number, the length and the kind of the keyword that has it.
#[derive(Clone, Copy)]
pub struct Slot {
    pub number: u64,
    pub len: usize,
    pub kind: u8,
}

// The place of a name of `len` bytes with this first and this last byte.
fn place(len: usize, first: u8, last: u8) -> usize
    ensures { result ≡ place_by len first last }
{
    ((first as usize) + 4 * (5 * (last as usize) + len % 16)) % 64
}

fn slot_of(number: u64, len: usize, kind: u8) -> Slot
    ensures { result ≡ record { number = number; len = len; kind = kind } }
{
    Slot { number, len, kind }
}

// What stands at a place; where no keyword has it, number and length are 0, and the kind is Id. LLVM makes tables of constants of this.
fn slot_at(place: usize) -> Slot
    ensures { result ≡ slot_at place }
{
    match place {
        4 => slot_of(444351014244, 5, DEBUG),
        5 => slot_of(499984201569, 5, AWAIT),
        7 => slot_of(500152823651, 5, CONST),
        8 => slot_of(7628140, 3, LET),
        9 => slot_of(28265, 2, IN),
        10 => slot_of(7630702, 3, NOT),
        13 => slot_of(128034844735589, 6, EXPORT),
        17 => slot_of(128034844732777, 6, IMPORT),
        18 => slot_of(461195539042, 5, BREAK),
        20 => slot_of(512970877044, 5, THROW),
        23 => slot_of(448345170275, 5, CATCH),
        26 => slot_of(7499622, 3, FOR),
        28 => slot_of(1852139636, 4, THEN),
        29 => slot_of(431315315065, 5, YIELD),
        30 => slot_of(435728179558, 5, FALSE),
        31 => slot_of(29295, 2, OR),
        33 => slot_of(448345170285, 5, MATCH),
        34 => slot_of(121437875889522, 6, RETURN),
        37 => slot_of(29537, 2, AS),
        39 => slot_of(7310870969309884259, 8, CONTINUE),
        40 => slot_of(1702195828, 4, TRUE),
        41 => slot_of(26217, 2, IF),
        43 => slot_of(114776364119923, 6, SWITCH),
        46 => slot_of(1819047278, 4, NULL),
        47 => slot_of(435610544247, 5, WHILE),
        52 => slot_of(7959156, 3, TRY),
        54 => slot_of(34177684928883046, 7, FINALLY),
        57 => slot_of(465625706101, 5, UNTIL),
        58 => slot_of(1836020326, 4, FROM),
        59 => slot_of(1718379891, 4, SELF_),
        60 => slot_of(1886351212, 4, LOOP),
        61 => slot_of(6581857, 3, AND),
        _ => slot_of(0, 0, ID),
    }
}

// The largest number of `len` bytes.
fn mask(len: usize) -> u64
    requires { len ≤ 8 }
    ensures { result ≡ 2 ^ (8 * len) - 1 }
{
    match len {
        0 => 0,
        1 => 255,
        2 => 65_535,
        3 => 16_777_215,
        4 => 4_294_967_295,
        5 => 1_099_511_627_775,
        6 => 281_474_976_710_655,
        7 => 72_057_594_037_927_935,
        _ => 18_446_744_073_709_551_615,
    }
}

// The number of eight bytes.
pub fn word8(source: &[u8], at: usize) -> u64
    requires { at + 8 ≤ length source.now }
    ensures { result ≡ number (take 8 (drop at source.now)) }
{
    u64::from_le_bytes([
        source[at],
        source[at + 1],
        source[at + 2],
        source[at + 3],
        source[at + 4],
        source[at + 5],
        source[at + 6],
        source[at + 7],
    ])
}

// The kind, or Id.
fn kind_if(is: bool, kind: u8) -> u8
    ensures { result ≡ pick is kind id }
{
    if is {
        return kind;
    }
    ID
}

// The kind of the keyword that the `len` bytes at `at` are, or Id. The number of eight bytes there is known.
pub fn keyword_by(source: &[u8], at: usize, len: usize, word: u64) -> u8
    requires at_in_bounds { (at + 9 ≤ length source.now) × (at + len ≤ length source.now) × (1 ≤ len) }
    requires word_value { word ≡ number (take 8 (drop at source.now)) }
    ensures { result ≡ keyword_of (take len (drop at source.now)) }
{
    let slot = slot_at(place(len, source[at], source[at + (len - 1)]));
    kind_if(
        (word & mask(len.min(8)) == slot.number) & (len == slot.len),
        slot.kind,
    )
}

// The kind of the keyword that the `len` bytes at `at` are, or Id.
pub fn keyword(source: &[u8], at: usize, len: usize) -> u8
    ensures { result ≡ keyword_of (take len (drop at source.now)) }
{
    // Near the end there are no eight bytes to read.
    if source.len() < 9 {
        return keywords::keyword(source, at, len);
    }
    if source.len() - 9 < at {
        return keywords::keyword(source, at, len);
    }
    if len < 1 {
        return ID;
    }
    if source.len() - at < len {
        return keywords::keyword(source, at, len);
    }
    keyword_by(source, at, len, word8(source, at))
}
