// Rows appended to the work table. All functions here are inner.
ghost use Rattle.std.specs.Prelude.{◌≡◌, [], ◌∷◌, ◌+◌, ◌*◌, ◌≤◌, ◌<◌, length};
ghost use Rattle.common.specs.Front.{front};
ghost use Rattle.common.specs.Store.{put_at};
ghost use Rattle.work.specs.Layout.{all_words, start_stored, count_place};
ghost use Rattle.work.specs.Append.{next_channel, next_channels, next_row};

use crate::places::{CHANNEL, CHANNELS, HEAD, ROW, count_place};
use crate::writing::{Head, write_channel, write_head};
use rows::Outcome;

// Writes row 0: the start with empty products, made from no row by no transition, so with 65,535 in both words, as C's callers read them. Inner.
pub fn start_row(w: &mut [u16], state: u16)
    requires { 103 ≤ length w.old }
    ensures { w.new ≡ front (all_words (start_stored state ∷ [])) w.old }
{
    let head = Head {
        state,
        parent: u16::MAX,
        transition: u16::MAX,
    };
    write_head(w, 0, head);
    w[HEAD..ROW].fill(0);
}

// Writes channel c of a new row, the outcome's: the product if it is the channel that changes, else what the row has that the outcome comes from. Inner.
fn next_channel(w: &mut [u16], c: usize, to: usize, outcome: &Outcome)
    requires { (count_place outcome.now.source_row c + 25 ≤ to) × (to + 25 ≤ length w.old) × (length outcome.now.product.now ≤ 24) }
    ensures { w.new ≡ put_at w.old to (next_channel w.old outcome.now.source_row outcome.now.channel outcome.now.product.now c) }
{
    if c == outcome.channel {
        write_channel(w, to, outcome.product);
    } else {
        let from = count_place(outcome.source_row, c);
        w.copy_within(from..from + CHANNEL, to);
    }
}

// Writes the channels of a new row from `to` on, behind the row that the outcome comes from. Inner.
fn next_channels(w: &mut [u16], to: usize, outcome: &Outcome)
    requires { (103 * outcome.now.source_row + 103 ≤ to) × (to + 100 ≤ length w.old) × (length outcome.now.product.now ≤ 24) }
    ensures { w.new ≡ put_at w.old to (next_channels 4 w.old outcome.now.source_row outcome.now.channel outcome.now.product.now) }
{
    for c in 0..CHANNELS {
        next_channel(w, c, to + CHANNEL * c, outcome);
    }
}

// Appends the outcome of a transition behind the first `rows` rows. Inner.
pub fn append_row(w: &mut [u16], rows: usize, outcome: &Outcome, transition: u16)
    requires { (103 * rows + 103 ≤ length w.old) × (rows ≤ 1024) × (outcome.now.source_row < rows) × (outcome.now.target < 65536) × (length outcome.now.product.now ≤ 24) }
    ensures { w.new ≡ put_at w.old (103 * rows) (next_row w.old outcome.now.target outcome.now.source_row transition outcome.now.channel outcome.now.product.now) }
{
    let at = ROW * rows;
    let head = Head {
        state: outcome.target as u16,
        parent: outcome.source_row as u16,
        transition,
    };
    write_head(w, at, head);
    next_channels(w, at + HEAD, outcome);
}
