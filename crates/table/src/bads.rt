// The bad states of a good table. They rise, so one is sought by halving.
ghost use Rattle.std.specs.Prelude.{◌≡◌, ◌+◌, ◌*◌, ◌≤◌, length};
ghost use Rattle.table.specs.Systems.{bad_at, bad_state};

use crate::checks::Shape;
use crate::good::Table;
use reader::numbers::number_at;
use reader::records::part_of;

// Bad state i. Inner: its record's bytes are there.
#[tactic(auto, using(reader::proofs::RecordLaws::part_length), unfolding(crate::specs::Systems::bad_at))]
pub fn bad_at(t: &[u8], s: Shape, i: usize) -> usize
    requires { 10 + 12 * s.transitions + 6 * i + 6 ≤ length t.now }
    ensures { result ≡ bad_at t.now s i }
{
    number_at(part_of(t, 10 + 12 * s.transitions + 6 * i, 2), 0)
}

impl Table<'_> {
    // Whether a state is bad. The numbers stand in records of bytes, so there is no slice of them for the library's binary search.
    pub fn is_bad(&self, state: usize) -> bool
        ensures { result ≡ bad_state self.now.bytes.now self.now.shape state }
    {
        let mut low: usize = 0;
        let mut high = self.shape.bads;
        while low < high {
            let middle = low + (high - low) / 2;
            let found = bad_at(self.bytes, self.shape, middle);
            if found == state {
                return true;
            }
            if found < state {
                low = middle + 1;
            } else {
                high = middle;
            }
        }
        false
    }
}
