// The look over rows for one that contains an outcome. It reads the rows where they stand.
ghost use Rattle.std.specs.Prelude.{◌≡◌, ℕ, ◌<◌, ◌≤◌};
ghost use Rattle.atoms.specs.Contained.{contained};
ghost use Rattle.rows.specs.Rows.{Row};
ghost use Rattle.rows.specs.Look.{covered_in, outcome_row};

use atoms::products::contained;

// Rows that stand somewhere in memory.
pub trait Rows {
    // How many there are, each one, and how many of their channels can be asked for.
    ghost count: { Self → ℕ };

    ghost row_at: { Self → ℕ → Row };

    ghost channels: { Self → ℕ };

    fn count(&self) -> usize
        ensures { result ≡ count self.now };

    fn state(&self, r: usize) -> usize
        requires { r < count self.now }
        ensures { result ≡ (row_at self.now r).state };

    fn product(&self, r: usize, c: usize) -> &[u16]
        requires { (r < count self.now) × (c < channels self.now) }
        ensures { result.now ≡ (row_at self.now r).products c };
}

// An outcome: in the target state, with the products of a row, but at one channel the product that is given. A channel that the rows do not have
// says that none is changed. The product is no type of at most 24 atoms: it can have 25, until the search has tested it. That the source row is one of the
// rows is a clause of those that take both: an outcome does not hold the rows.
#[derive(Clone, Copy)]
pub struct Outcome<'a> {
    pub target: usize,
    pub source_row: usize,
    pub channel: usize,
    pub product: &'a [u16],
}

// Channel c of the outcome is contained in channel c of row r.
fn channel_contained<R: Rows>(rows: &R, r: usize, c: usize, outcome: &Outcome) -> bool
    requires { (r < R.count rows.now) × (outcome.now.source_row < R.count rows.now) × (c < R.channels rows.now) }
    ensures { result ≡ contained ((outcome_row (R.row_at rows.now) outcome.now).products c) ((R.row_at rows.now r).products c) }
{
    let there = rows.product(r, c);
    if c == outcome.channel {
        return contained(outcome.product, there);
    }
    contained(rows.product(outcome.source_row, c), there)
}

// One of the rows contains the outcome, by the first `channels` channels: the first that does ends the look. Labelled loops: docs/DECISIONS.md (Forms) has
// this place for them. Inner.
pub fn is_covered<R: Rows>(rows: &R, channels: usize, outcome: &Outcome) -> bool
    requires { (outcome.now.source_row < R.count rows.now) × (channels ≤ R.channels rows.now) }
    ensures { result ≡ covered_in channels (R.row_at rows.now) (R.count rows.now) (outcome_row (R.row_at rows.now) outcome.now) }
{
    'rows: for r in 0..rows.count() {
        if rows.state(r) == outcome.target {
            for c in (0..channels).rev() {
                if !channel_contained(rows, r, c, outcome) {
                    continue 'rows;
                }
            }
            return true;
        }
    }
    false
}
