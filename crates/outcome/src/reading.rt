// The rows of the work table, read in place.
ghost use Rattle.std.specs.Prelude.{◌≡◌, ◌<◌, ◌≤◌, get_or, length};
ghost use Rattle.outcome.specs.Look.{product_at, row_at, Sized};

use rows::Rows;
use work::reading::{product_of, state_of};

// The first `count` rows in lent words.
#[derive(Clone, Copy)]
pub struct WorkRows<'a> {
    pub words: &'a [u16],
    pub count: usize,
    pub ghost sized: { Sized words.now count },
}

impl Rows for WorkRows<'_> {
    ghost count = { λ rows. rows.count };

    ghost row_at = { λ rows. row_at rows.words.now };

    ghost channels = { λ rows. 4 };

    fn count(&self) -> usize {
        self.count
    }

    fn state(&self, r: usize) -> usize {
        state_of(self.words, r)
    }

    fn product(&self, r: usize, c: usize) -> &[u16]
        requires { (r < self.now.count) × (c < 4) }
        ensures atoms { result.now ≡ product_at self.now.words.now r c }
        ensures few { length result.now ≤ 24 }
    {
        product_of(self.words, r, c)
    }
}
