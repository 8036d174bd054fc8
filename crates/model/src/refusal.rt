// The refusals, and the check that gives one.
ghost use Rattle.std.specs.Prelude.{◌≡◌};
ghost use Rattle.model.specs.Refusals.{number, Checked};

// Each with its number, under which hosts and sheets know it.
#[derive(Clone, Copy, PartialEq, Eq, Debug)]
pub enum Refusal {
    // a lent buffer is not of its length
    BufferLength = 1,
    // the file is too long
    FileLength = 2,
    // no such kind, or no byte at all
    UnknownKind = 3,
    // the body is cut short, or bytes are left over
    BodyLength = 4,
    // the slot counts are not those of a board
    BadCounts = 5,
    // there is no board
    NoBoard = 6,
    // a rule's number is over 63
    BadNumber = 7,
    // the arity is not 1 to 4
    BadArity = 8,
    // a call of the rule is not on the board
    CallOffBoard = 9,
    // a call stands twice in the rule
    CallTwice = 10,
    // a field past the arity is not 255
    SpareField = 11,
    // there is no draft
    NoDraft = 12,
    // the draft has 64 rows
    DraftFull = 13,
    // a slot of the row is not on its call
    SlotOffCall = 14,
    // the row is in the draft already
    RowTwice = 15,
    // the number is in force already
    InForce = 16,
    // the number is not in force
    NotInForce = 17,
    // there is no such call
    NoCall = 18,
    // there is no such slot
    NoSlot = 19,
    // there is no such row
    NoRow = 20,
    // there is no such column
    NoColumn = 21,
    // the lent summary table is not of its length
    TableLength = 22,
    // a gap rule's form is not 1 to 3
    BadForm = 23,
    // the gap is over 31, or not 0 in form 3
    BadGap = 24,
    // over 64 pairs of slots fit
    TooManyPairs = 25,
    // a mark's name is over 1
    BadName = 26,
    // nothing is kept under the name
    NothingKept = 27,
    // the call is cancelled already
    AlreadyCancelled = 28,
    // a call of a new rule is cancelled
    CancelledCall = 29,
    // a plan is not 32 bytes
    PlanLength = 32,
    // a byte of a plan is no slot of its call, or is not 255 where the call gets none
    BadPlanByte = 33,
}

impl Refusal {
    pub fn number(self) -> u8
        ensures { result ≡ number self }
    {
        self as u8
    }

    // Refused where the condition holds. A list of checks is a line of these for each, with `?` behind it.
    pub fn when(self, holds: bool) -> Result<(), Refusal>
        ensures { Checked self holds result }
    {
        if holds { Err(self) } else { Ok(()) }
    }
}
