// A refusal as every caller is told it, in numbers: the C interface and the texts of the programs have these. The crates above add what they refuse.
ghost use Rattle.std.specs.Prelude.{◌≡◌};
ghost use Rattle.table.specs.Answers.{refusal_of, refusal_told};

use crate::faults::Refusal;

// The number of the refusal (1 to 10), the input that is refused (0 table, 1 list, 2 run, 3 lent buffer or work row), and the place in it.
#[derive(Clone, Copy, Debug, PartialEq, Eq)]
pub struct Told {
    pub number: usize,
    pub input: usize,
    pub place: usize,
}

// By `as`: u64::from of a fault, which docs/CONTRACTS.md names, has the number as C has it.
impl From<Refusal> for Told {
    ghost from_gives = { λ refusal told. refusal_told told ≡ refusal_of refusal.fault refusal.at };

    fn from(refusal: Refusal) -> Told {
        Told {
            number: u64::from(refusal.fault) as usize,
            input: 0,
            place: refusal.place(),
        }
    }
}
