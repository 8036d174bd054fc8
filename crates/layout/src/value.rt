// The value beside the lent buffers, whole.
ghost use Rattle.std.specs.Prelude.{◌≡◌, length};
ghost use Rattle.layout.specs.Value.{fresh_heads, empty_rule, empty_draft, fresh_value, with_draft};
ghost use Rattle.layout.specs.Sizes.{bad_lent?};

// The calls and the heads of the rules in force.
#[repr(C)]
#[derive(Clone, Copy)]
pub struct Heads {
    // slots of each call; 0 after the last call
    pub counts: [u8; 32],
    // columns of each rule; 0 where the number is not in force
    pub arity: [u8; 64],
    // calls of rule r from 4 * r on; 255 past its columns
    pub scope: [u8; 256],
    // rows of each rule
    pub lengths: [u8; 64],
}

// A rule as data. An arity of 0 means that there is none.
#[repr(C)]
#[derive(Clone, Copy)]
pub struct RuleData {
    pub arity: u8,
    // its calls; 255 past its columns
    pub scope: [u8; 4],
    // number of rows
    pub length: u8,
    // row w from 4 * w on; 255 past its columns and rows
    pub rows: [u8; 256],
}

// The rule that is being written, and the number that it is to come into force under.
#[repr(C)]
#[derive(Clone, Copy)]
pub struct Draft {
    pub number: u8,
    pub rule: RuleData,
}

#[repr(C)]
#[derive(Clone, Copy)]
pub struct Value {
    pub heads: Heads,
    pub draft: Draft,
}

// The row bytes that the host lends: 4 for each of 64 rows of each of 64 rules.
pub const ROWS: usize = 16384;

// The killer bytes that it lends: one for each row of each rule.
pub const KILLERS: usize = 4096;

// The slot bytes that it lends: one for each of 32 slots of each of 32 calls.
pub const SLOTS: usize = 1024;

// Refusal 1: a lent buffer does not have its length.
pub fn bad_lengths(rows: &[u8], killers: &[u8], slots: &[u8]) -> bool
    ensures { result
        ≡ bad_lent?
        (record { rows = length rows.entry.now; killers = length killers.now; slots = length slots.now }) }
{
    rows.len() != ROWS || killers.len() != KILLERS || slots.len() != SLOTS
}

impl Heads {
    // No calls, and no rule in force.
    pub fn fresh() -> Self
        ensures { result ≡ fresh_heads }
    {
        Self {
            counts: [0; 32],
            arity: [0; 64],
            scope: [255; 256],
            lengths: [0; 64],
        }
    }
}

impl RuleData {
    // No rule.
    pub const EMPTY: RuleData = RuleData {
        arity: 0,
        scope: [255; 4],
        length: 0,
        rows: [255; 256],
    };

    pub fn empty() -> Self
        ensures { result ≡ empty_rule }
    {
        Self::EMPTY
    }
}

impl Draft {
    // No draft.
    pub fn empty() -> Self
        ensures { result ≡ empty_draft }
    {
        Self {
            number: 255,
            rule: RuleData::EMPTY,
        }
    }
}

impl Value {
    // The value before the first command.
    pub fn fresh() -> Self
        ensures { result ≡ fresh_value }
    {
        Self {
            heads: Heads::fresh(),
            draft: Draft::empty(),
        }
    }

    // The same value with another draft.
    pub fn with_draft(self, draft: Draft) -> Self
        ensures { result ≡ with_draft self draft }
    {
        Self { draft, ..self }
    }
}
