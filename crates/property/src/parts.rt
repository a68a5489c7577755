// The parts of a code point's properties, which a table gives in one number.
ghost use Rattle.std.specs.Prelude.{◌≡◌};
ghost use Rattle.property.specs.Parts.{xid_start, xid_continue, width_of, class_of, is_pict, incb_of};

// lexer.rs `is_id_start`: XID_Start.
pub fn is_id_start(properties: u32) -> bool
    ensures { result ≡ xid_start properties }
{
    properties % 2 == 1
}

// lexer.rs `is_id_continue`: XID_Continue.
pub fn is_id_continue(properties: u32) -> bool
    ensures { result ≡ xid_continue properties }
{
    properties / 2 % 2 == 1
}

// The columns that a character takes: unicode-width's `width`, where no width counts 0.
pub fn width_of(properties: u32) -> u32
    ensures { result ≡ width_of properties }
{
    properties / 4 % 4
}

// The cluster class (UAX #29, Grapheme_Cluster_Break).
pub fn class_of(properties: u32) -> u32
    ensures { result ≡ class_of properties }
{
    properties / 16 % 16
}

// Extended_Pictographic.
pub fn is_pict(properties: u32) -> bool
    ensures { result ≡ is_pict properties }
{
    properties / 256 % 2 == 1
}

// InCB (Indic_Conjunct_Break).
pub fn incb_of(properties: u32) -> u32
    ensures { result ≡ incb_of properties }
{
    properties / 512 % 4
}
