// The moves of a list's rows: each outcome is impossible or inside one row, or the lowest row and its lowest move for which it is not. All
// functions here are inner.
ghost use Rattle.std.specs.Prelude.{◌≡◌, ◌<◌, ◌≤◌, ◌&&◌, not, nat_eq, length, get_or};
ghost use Rattle.meaning.specs.Systems.{Ranged};
ghost use Rattle.table.specs.Transitions.{operation_of, move_of, transition_at};
ghost use Rattle.judge.specs.Moves.{settled_at, first_open, first_open_row};
ghost use Rattle.judge.specs.Repeats.{Sources};

use crate::memory::{Listed, Rows};
use crate::outcomes::outcome_into;
use crate::repeats::sources_of;
use rows::{Outcome, Rows as _, is_covered};
use table::Transition;

// The outcome of a transition from row i, which is in its source, is impossible or inside one row. Rows and number stay two: the look goes over all rows, and
// an outcome names its row by number. The buffer is local: find and find_map, which go over moves and rows, promise most of closures that change nothing.
fn is_settled(rows: &Rows, i: usize, transition: Transition) -> bool
    requires i_lt_rows { i < length rows.now.states.now }
    requires in_source { get_or rows.now.states.now i 0 ≡ transition.source }
    requires ranged { Ranged rows.now.products.channels 15 (operation_of transition.operation) }
    ensures { result ≡ settled_at rows.now i (move_of transition) }
{
    let loops = transition.source == transition.target;
    let mut buffer = [0u16; 25];
    match outcome_into(&rows.products, i, transition.operation, loops, &mut buffer) {
        None => true,
        Some(changed) => {
            let outcome = Outcome {
                target: transition.target,
                source_row: i,
                channel: changed.channel,
                product: &buffer[..changed.count],
            };
            is_covered(rows, rows.products.channels, &outcome)
        }
    }
}

// Why a list is not closed: the lowest row with a transition whose outcome is neither impossible nor inside one row, and its lowest.
#[derive(Clone, Copy, Debug, PartialEq, Eq)]
pub struct Open {
    pub row: usize,
    pub transition: usize,
}

// A table and rows of a list, with where the transitions come from whose moves are looked at.
#[derive(Clone, Copy)]
struct Look<'a> {
    listed: &'a Listed<'a>,
    sources: &'a [u16; 1024],
    ghost told: { Sources listed.now.table.now.bytes.now listed.now.table.now.shape.transitions sources.now },
}

impl Look<'_> {
    // The outcome of transition j from row i, which is in that state, is neither, and j is not passed by for an earlier one with its move.
    fn is_open(&self, i: usize, state: usize, j: usize) -> bool
        requires in_bounds { (i < length self.now.listed.now.rows.now.states.now) × (j < self.now.listed.now.table.now.shape.transitions) }
        requires in_state { get_or self.now.listed.now.rows.now.states.now i 0 ≡ state }
        ensures { result ≡ (not (nat_eq (get_or self.now.sources.now j 0) 4096) && not (settled_at self.now.listed.now.rows.now i (move_of (transition_at self.now.listed.now.table.now.bytes.now j)))) }
    {
        let source = usize::from(self.sources[j]);
        if source != state {
            return false;
        }
        let listed = self.listed;
        source != 4096 && !is_settled(listed.rows, i, listed.table.transition(j))
    }

    // The lowest transition whose outcome from row i is neither: it has the move of no earlier one, whose outcome would be the same.
    fn open_move(&self, i: usize) -> Option<usize>
        requires { i < length self.now.listed.now.rows.now.states.now }
        ensures { result ≡ first_open self.now.listed.now.table.now.bytes.now self.now.listed.now.table.now.shape self.now.listed.now.rows.now i self.now.listed.now.table.now.shape.transitions 0 }
    {
        let state = self.listed.rows.state(i);
        (0..self.listed.table.shape.transitions).find(|j| self.is_open(i, state, *j))
    }

    // The lowest row with such a transition, and its lowest.
    fn open_row(&self) -> Option<Open>
        ensures { result ≡ first_open_row self.now.listed.now.table.now.bytes.now self.now.listed.now.table.now.shape self.now.listed.now.rows.now (length self.now.listed.now.rows.now.states.now) 0 }
    {
        (0..self.listed.rows.count()).find_map(|row| {
            let transition = self.open_move(row)?;
            Some(Open { row, transition })
        })
    }
}

impl Listed<'_> {
    // Looks at each row; none where the list is closed.
    pub fn open_row(&self) -> Option<Open>
        ensures { result ≡ first_open_row self.now.table.now.bytes.now self.now.table.now.shape self.now.rows.now (length self.now.rows.now.states.now) 0 }
    {
        let sources = sources_of(self.table);
        let look = Look {
            listed: self,
            sources: &sources,
        };
        look.open_row()
    }
}
