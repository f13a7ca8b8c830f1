// Which rows of a work table can be written: state, counts and counted words are tested, in the order of the words. All functions here are inner.
ghost use Rattle.std.specs.Prelude.{◌≡◌, ◌+◌, ◌*◌, ◌<◌, ◌≤◌, length};
ghost use Rattle.writer.specs.Fitting.{all_pass, first_not, channel_passes, row_passes};

use crate::words::{Row, Rows};
use atoms::masks::all_atoms;
use table::Shape;

// The count of channel c is at most 24, and its words are atoms. Inner.
fn channel_passes(row: &Row, c: usize, messages: usize) -> bool
    requires { (c < 4) × (messages ≤ 15) }
    ensures { result ≡ channel_passes messages row.now.work.now row.now.number c }
{
    if 24 < row.count(c) {
        return false;
    }
    all_atoms(row.product(c), messages)
}

// Each channel passes. Inner.
fn channels_pass(row: &Row, channels: usize, messages: usize) -> bool
    requires { (channels ≤ 4) × (messages ≤ 15) }
    ensures { result ≡ all_pass (channel_passes messages row.now.work.now row.now.number) channels }
{
    (0..channels).all(|c| channel_passes(row, c, messages))
}

// The row can be written for a table of that shape. Inner.
fn row_passes(row: &Row, s: Shape) -> bool
    requires { (s.channels ≤ 4) × (s.messages ≤ 15) }
    ensures { result ≡ row_passes s row.now.work.now row.now.number }
{
    row.state() < s.states && channels_pass(row, s.channels, s.messages)
}

// The lowest of the rows that cannot be written for a table of that shape. It takes any shape within the limits, and no Table, which would ask for its
// bytes too. Inner.
pub fn first_unfit(rows: &Rows, s: Shape) -> Option<usize>
    requires { (s.channels ≤ 4) × (s.messages ≤ 15) }
    ensures { result ≡ first_not (row_passes s rows.now.work.now) rows.now.count 0 }
{
    (0..rows.count).find(|i| !row_passes(&rows.row(*i), s))
}
