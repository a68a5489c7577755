// The rules of grapheme clusters (UAX #29, section 3.1.1) at one place of a text, in one pass: what the rules look back for is kept in a state.
// koto has this from the crate unicode-segmentation; here the properties come as numbers. The rules are tried in the annex's order.
// It knows no bytes, no table and no text. Left out: legacy clusters, and clusters that are read from their end.
#![tactic(auto)]

ghost use Rattle.std.specs.Prelude.{◌≡◌, []};
ghost use Rattle.uax29.specs.Uax29.{is_control, gb3, gb6, gb7, gb8, gb9, pair_rule, gb9c, gb11, gb12};
ghost use Rattle.uax29.specs.State.{left_of, pict_step, zwj_step, odd_step, consonant_step, linked_step, passed, joined_by};

// The cluster classes of the property table.
const CR: u32 = 1;

const LF: u32 = 2;

const CONTROL: u32 = 3;

const EXTEND: u32 = 4;

const ZWJ: u32 = 5;

const REGIONAL_INDICATOR: u32 = 6;

const PREPEND: u32 = 7;

const SPACING_MARK: u32 = 8;

const L: u32 = 9;

const V: u32 = 10;

const T: u32 = 11;

const LV: u32 = 12;

const LVT: u32 = 13;

// The values of InCB.
const CONSONANT: u32 = 1;

const INCB_EXTEND: u32 = 2;

const LINKER: u32 = 3;

// What the classes of the two characters at a place say.
#[derive(Clone, Copy)]
pub enum Pair {
    Joined,
    Broken,
    // They do not decide.
    Open,
}

// What is kept of the characters to the left of a place.
#[derive(Clone, Copy)]
pub struct Left {
    // The class of the last one.
    pub class: u32,
    // They end in ExtPict Extend*; and in that and ZWJ.
    pub pict: bool,
    pub zwj: bool,
    // They end in an odd number of Regional_Indicator.
    pub odd: bool,
    // They end in a consonant and its extenders; and with a linker among these.
    pub consonant: bool,
    pub linked: bool,
}

#[tactic(auto, unfolding(crate::specs::Uax29::is_control))]
fn is_control(class: u32) -> bool
    ensures { result ≡ is_control class }
{
    matches!(class, CR | LF | CONTROL)
}

// GB3: CR × LF
#[tactic(auto, unfolding(crate::specs::Uax29::gb3))]
fn joins_crlf(before: u32, after: u32) -> bool
    ensures { result ≡ gb3 before after }
{
    before == CR && after == LF
}

// GB6: L × (L | V | LV | LVT)
#[tactic(auto, unfolding(crate::specs::Uax29::gb6))]
fn joins_l(before: u32, after: u32) -> bool
    ensures { result ≡ gb6 before after }
{
    before == L && matches!(after, L | V | LV | LVT)
}

// GB7: (LV | V) × (V | T)
#[tactic(auto, unfolding(crate::specs::Uax29::gb7))]
fn joins_v(before: u32, after: u32) -> bool
    ensures { result ≡ gb7 before after }
{
    matches!(before, LV | V) && matches!(after, V | T)
}

// GB8: (LVT | T) × T
#[tactic(auto, unfolding(crate::specs::Uax29::gb8))]
fn joins_t(before: u32, after: u32) -> bool
    ensures { result ≡ gb8 before after }
{
    matches!(before, LVT | T) && after == T
}

// GB9: × (Extend | ZWJ)
#[tactic(auto, unfolding(crate::specs::Uax29::gb9))]
fn is_extender(after: u32) -> bool
    ensures { result ≡ gb9 after }
{
    matches!(after, EXTEND | ZWJ)
}

// The rules on two classes, in the annex's order.
#[tactic(auto, unfolding(crate::specs::Uax29::pair_rule))]
fn check_pair(before: u32, after: u32) -> Pair
    ensures { result ≡ pair_rule before after }
{
    if joins_crlf(before, after) {
        return Pair::Joined;
    }
    // GB4 and GB5
    if is_control(before) || is_control(after) {
        return Pair::Broken;
    }
    // The last two are GB9a and GB9b.
    if joins_l(before, after)
        || joins_v(before, after)
        || joins_t(before, after)
        || is_extender(after)
        || after == SPACING_MARK
        || before == PREPEND
    {
        return Pair::Joined;
    }
    Pair::Open
}

// GB9c, in edition 2: a consonant after a consonant and a linker
#[tactic(auto, unfolding(crate::specs::Uax29::gb9c))]
fn joins_conjunct(edition: u32, linked: bool, p: u32) -> bool
    ensures { result ≡ gb9c edition linked p }
{
    edition == 2 && (property::incb_of(p) == CONSONANT && linked)
}

// GB11: ExtPict Extend* ZWJ × ExtPict
#[tactic(auto, unfolding(crate::specs::Uax29::gb11))]
fn joins_pict(zwj: bool, p: u32) -> bool
    ensures { result ≡ gb11 zwj p }
{
    property::is_pict(p) && zwj
}

// GB12 and GB13: a second Regional_Indicator
#[tactic(auto, unfolding(crate::specs::Uax29::gb12))]
fn joins_flag(odd: bool, p: u32) -> bool
    ensures { result ≡ gb12 odd p }
{
    property::class_of(p) == REGIONAL_INDICATOR && odd
}

// Whether there is no break between what stands to the left and the character with the properties p.
#[tactic(auto, unfolding(crate::specs::State::joined_by))]
pub fn is_joined(edition: u32, left: Left, p: u32) -> bool
    ensures { result ≡ joined_by edition left p }
{
    match check_pair(left.class, property::class_of(p)) {
        Pair::Joined => true,
        Pair::Broken => false,
        Pair::Open => {
            joins_conjunct(edition, left.linked, p)
                || joins_pict(left.zwj, p)
                || joins_flag(left.odd, p)
        }
    }
}

#[tactic(auto, unfolding(crate::specs::State::pict_step))]
fn pict_step(pict: bool, p: u32) -> bool
    ensures { result ≡ pict_step pict p }
{
    property::is_pict(p) || (property::class_of(p) == EXTEND && pict)
}

#[tactic(auto, unfolding(crate::specs::State::zwj_step))]
fn zwj_step(pict: bool, p: u32) -> bool
    ensures { result ≡ zwj_step pict p }
{
    property::class_of(p) == ZWJ && pict
}

#[tactic(auto, unfolding(crate::specs::State::odd_step))]
fn odd_step(odd: bool, p: u32) -> bool
    ensures { result ≡ odd_step odd p }
{
    property::class_of(p) == REGIONAL_INDICATOR && !odd
}

#[tactic(auto, unfolding(crate::specs::State::consonant_step))]
fn consonant_step(consonant: bool, p: u32) -> bool
    ensures { result ≡ consonant_step consonant p }
{
    match property::incb_of(p) {
        CONSONANT => true,
        INCB_EXTEND | LINKER => consonant,
        _ => false,
    }
}

#[tactic(auto, unfolding(crate::specs::State::linked_step))]
fn linked_step(consonant: bool, linked: bool, p: u32) -> bool
    ensures { result ≡ linked_step consonant linked p }
{
    match property::incb_of(p) {
        LINKER => consonant,
        INCB_EXTEND => linked,
        _ => false,
    }
}

impl Left {
    // The state at the start of a text.
    pub fn new() -> Left
        ensures { result ≡ left_of [] }
    {
        Left {
            class: 0,
            pict: false,
            zwj: false,
            odd: false,
            consonant: false,
            linked: false,
        }
    }

    // The state with one more character, of the properties p.
    pub fn pass(self, p: u32) -> Left
        ensures { result ≡ passed self p }
    {
        Left {
            class: property::class_of(p),
            pict: pict_step(self.pict, p),
            zwj: zwj_step(self.pict, p),
            odd: odd_step(self.odd, p),
            consonant: consonant_step(self.consonant, p),
            linked: linked_step(self.consonant, self.linked, p),
        }
    }
}
