// What can be wrong with a table, and the refusal that each fault is.
ghost use Rattle.std.specs.Prelude.{◌≡◌};
ghost use Rattle.table.specs.Answers.{number_of, place_of, field_place};

// A fault of a record. A wrong field is found as the offset of its first byte from the record's start.
#[derive(Clone, Copy, Debug, PartialEq, Eq)]
pub enum Fault {
    Cut,
    Kind,
    Length,
    Count,
    Field(usize),
    Rising,
}

// The number of the refusal for a fault.
impl From<Fault> for u64 {
    ghost from_gives = { λ fault number. number ≡ number_of fault };

    fn from(fault: Fault) -> u64 {
        match fault {
            Fault::Cut => 1,
            Fault::Kind => 2,
            Fault::Length => 3,
            Fault::Field(_) => 4,
            Fault::Rising => 5,
            Fault::Count => 6,
        }
    }
}

// Why a table is refused: its first fault, and the start of the record that has it.
#[derive(Clone, Copy, Debug, PartialEq, Eq)]
pub struct Refusal {
    pub fault: Fault,
    pub at: usize,
}

impl Refusal {
    // The place of the refusal, as every caller sees it.
    pub fn place(self) -> usize
        ensures { result ≡ place_of self.fault self.at }
    {
        match self.fault {
            Fault::Field(offset) => field_place(self.at, offset),
            Fault::Cut => self.at,
            Fault::Kind => self.at,
            Fault::Length => self.at,
            Fault::Count => self.at,
            Fault::Rising => self.at,
        }
    }
}

// The place of a refusal for a wrong field, of the record that starts at a place, at an offset in it: the record's start.
pub fn field_place(at: usize, offset: usize) -> usize
    ensures { result ≡ field_place at offset }
{
    at
}
