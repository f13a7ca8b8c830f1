// The visit of one move of a row: its outcome, and the six tests of it in order. Work table and count of rows stay two parameters: Tests, Passes and Walks,
// which visit_move and walk_rows promise, speak of the words that are left and of the count that is answered. The buffer is a slice of at least 25 words and
// no array: docs/ARCHITECTURE.md names both, and an array would ask more of their callers.
ghost use Rattle.std.specs.Prelude.{◌≡◌, ◌<◌, ◌≤◌, length};
ghost use Rattle.std.proofs.Math.Option.{some};
ghost use Rattle.table.specs.Systems.{system_of};
ghost use Rattle.rows.specs.Look.{covered_in, outcome_row};
ghost use Rattle.work.specs.Room.{room_of};
ghost use Rattle.findings.specs.Search.{outcome_at};
ghost use Rattle.outcome.specs.Look.{row_at};
ghost use Rattle.search.specs.Standing.{Stands};
ghost use Rattle.search.specs.Visits.{Tests};

use outcome::outcomes::outcome_into;
use outcome::reading::WorkRows;
use rows::{Outcome, is_covered};
use table::Table;
use work::appending::append_row;
use work::reading::{room_of, state_of};

// Why the search ends before its last row.
#[derive(Clone, Copy, Debug, PartialEq, Eq)]
pub enum Stop {
    Unsafe,
    AtomsFull,
    RowsFull,
}

// One of the rows made contains the outcome. Not inlined: in the search's one function the loops of the look would keep on the stack what they read. Inner.
#[inline(never)]
fn is_made(made: &WorkRows, channels: usize, outcome: &Outcome) -> bool
    requires { (outcome.now.source_row < made.now.count) × (channels ≤ 4) }
    ensures { result ≡ covered_in channels (row_at made.now.words.now) made.now.count (outcome_row (row_at made.now.words.now) outcome.now) }
{
    is_covered(made, channels, outcome)
}

// The tests of the outcome of a transition. It is bad; contained in a row; too wide; there is no room; else it is appended. Answers how many rows there
// are then, or why the search ends. Inner.
fn test_outcome(
    table: &Table,
    w: &mut [u16],
    rows: usize,
    outcome: &Outcome,
    transition: usize,
) -> Result<usize, Stop>
    requires standing { Stands (system_of table.now.bytes.now) w.old rows }
    requires comes { outcome_at (system_of table.now.bytes.now) (row_at w.old outcome.now.source_row) transition ≡ some (outcome_row (row_at w.old) outcome.now) }
    requires there { (outcome.now.source_row < rows) × (transition < table.now.shape.transitions) × (outcome.now.target < 65536) }
    ensures { Tests (system_of table.now.bytes.now) (room_of (length w.old)) w.old rows outcome.now.source_row transition (outcome_at (system_of table.now.bytes.now) (row_at w.old outcome.now.source_row) transition) result w.new }
{
    if table.is_bad(outcome.target) {
        return Err(Stop::Unsafe);
    }
    let made = WorkRows {
        words: w,
        count: rows,
    };
    if is_made(&made, table.shape.channels, outcome) {
        return Ok(rows);
    }
    if 24 < outcome.product.len() {
        return Err(Stop::AtomsFull);
    }
    if room_of(w.len()) <= rows {
        return Err(Stop::RowsFull);
    }
    append_row(w, rows, outcome, transition as u16);
    Ok(rows + 1)
}

// Visits move j of row i: its outcome, with the product that changes in the buffer's first words, and the tests of it. Inner.
pub fn visit_move(
    table: &Table,
    w: &mut [u16],
    rows: usize,
    i: usize,
    j: usize,
    buffer: &mut [u16],
) -> Result<usize, Stop>
    requires standing { Stands (system_of table.now.bytes.now) w.old rows }
    requires there { (i < rows) × (j < table.now.shape.transitions) × (25 ≤ length buffer.old) }
    ensures { Tests (system_of table.now.bytes.now) (room_of (length w.old)) w.old rows i j (outcome_at (system_of table.now.bytes.now) (row_at w.old i) j) result w.new }
{
    let m = table.transition(j);
    if state_of(w, i) != m.source {
        return Ok(rows);
    }
    let made = WorkRows {
        words: w,
        count: rows,
    };
    let Some(changed) = outcome_into(&made, i, m.operation, m.source == m.target, buffer) else {
        return Ok(rows);
    };
    let outcome = Outcome {
        target: m.target,
        source_row: i,
        channel: changed.channel,
        product: &buffer[..changed.count],
    };
    test_outcome(table, w, rows, &outcome, j)
}
