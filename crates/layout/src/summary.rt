// The summary table that the host lends beside the buffers: a record for each of 32 calls.
ghost use Rattle.std.specs.Prelude.{◌≡◌};
ghost use Rattle.layout.specs.Summary.{no_table};

// The records of the table that the host lends: one for each call.
pub const RECORDS: usize = 32;

// A call's figures; all 0 for a call that is not on the board.
#[repr(C)]
#[derive(Clone, Copy)]
pub struct Summary {
    // its open slots
    pub open: u8,
    // its struck slots
    pub struck: u8,
    // the rules in force on it
    pub rules: u8,
}

// The 32 records by value.
#[repr(C)]
#[derive(Clone, Copy)]
pub struct Table {
    pub records: [Summary; RECORDS],
}

impl Summary {
    pub const NONE: Summary = Summary {
        open: 0,
        struck: 0,
        rules: 0,
    };
}

impl Table {
    // The records of a board without calls.
    pub fn empty() -> Self
        ensures { result ≡ no_table }
    {
        Self {
            records: [Summary::NONE; RECORDS],
        }
    }
}
