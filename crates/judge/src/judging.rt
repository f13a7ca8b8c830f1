// The judge of a table and a proof list: refusals first, then the first that holds of no start, bad row, not closed, accepted.
ghost use Rattle.std.specs.Prelude.{◌≡◌, ◌≤◌, length};
ghost use Rattle.judge.specs.Moves.{first_open_row};
ghost use Rattle.judge.specs.Judging.{closed_answer, judged_at, judge_good, Judges};
ghost use Rattle.judge.specs.declared.judging.Refused.TheVariants.{Table};

use crate::memory::{Listed, Products, Rows};
use crate::moves::Open;
use crate::states::{has_start, lowest_bad};
use lists::read_list;
use table::{Refusal, Table, Told};

// What is said of the rows of a good list, the first that holds: no row has the start; the lowest row in a bad state; the lowest row, and its lowest
// transition, whose outcome is neither impossible nor inside one row; accepted.
#[derive(Clone, Copy, Debug, PartialEq, Eq)]
pub enum Judgement {
    NoStart,
    BadRow(usize),
    NotClosed { row: usize, transition: usize },
    Accepted,
}

// Why nothing is said: the table's refusal, or the list's.
#[derive(Clone, Copy, Debug, PartialEq, Eq)]
pub enum Refused {
    Table(Refusal),
    List(Refusal),
}

impl From<Refusal> for Refused {
    ghost from_gives = { λ refusal refused. refused ≡ Table refusal };

    fn from(refusal: Refusal) -> Refused {
        Refused::Table(refusal)
    }
}

// A refusal of the list has the numbers of one of the table, but for the input, which is 1.
impl From<Refused> for Told {
    ghost use Rattle.std.specs.Prelude.{Err};
    ghost use Rattle.table.specs.Answers.{refusal_told};
    ghost use Rattle.judge.specs.Judging as judge;

    ghost from_gives = { λ refused told. judge.answer_of (Err refused) ≡ judge.refused (refusal_told told) };

    fn from(refused: Refused) -> Told {
        match refused {
            Refused::Table(refusal) => Told::from(refusal),
            Refused::List(refusal) => Told {
                input: 1,
                ..Told::from(refusal)
            },
        }
    }
}

impl Listed<'_> {
    // Looks at the moves of rows that have the start and no bad state.
    fn judge_moves(&self) -> Judgement
        ensures { result ≡ closed_answer (first_open_row self.now.table.now.bytes.now self.now.table.now.shape self.now.rows.now (length self.now.rows.now.states.now) 0) }
    {
        match self.open_row() {
            None => Judgement::Accepted,
            Some(Open { row, transition }) => Judgement::NotClosed { row, transition },
        }
    }

    // Judges the rows where they stand in memory.
    fn judge_rows(&self) -> Judgement
        ensures { result ≡ judged_at self.now.table.now.bytes.now self.now.table.now.shape self.now.rows.now }
    {
        if !has_start(self.rows.states, self.table.shape.start) {
            return Judgement::NoStart;
        }
        match lowest_bad(self.table, self.rows.states) {
            Some(row) => Judgement::BadRow(row),
            None => self.judge_moves(),
        }
    }
}

// Reads the list into memory and judges its rows there.
fn judge_list(
    table: &Table,
    list: &[u8],
    states: &mut [usize; 1024],
    starts: &mut [usize; 4097],
    atoms: &mut [u16; 98304],
) -> Result<Judgement, Refused>
    ensures { result ≡ judge_good table.now.bytes.now table.now.shape list.now }
{
    match read_list(list, table.shape, states, starts, atoms) {
        Err(refusal) => Err(Refused::List(refusal)),
        Ok(count) => {
            let products = Products {
                starts,
                atoms,
                channels: table.shape.channels,
                rows: count,
            };
            let rows = Rows {
                states: &states[..count],
                products,
            };
            let listed = Listed { table, rows: &rows };
            Ok(listed.judge_rows())
        }
    }
}

// The local memory of the judge: a state and at most four products for each of 1,024 rows, at most 24 atoms for each product.
fn judge_good(table: &Table, list: &[u8]) -> Result<Judgement, Refused>
    ensures { result ≡ judge_good table.now.bytes.now table.now.shape list.now }
{
    let mut states = [0usize; 1024];
    let mut starts = [0usize; 4097];
    let mut atoms = [0u16; 98304];
    judge_list(table, list, &mut states, &mut starts, &mut atoms)
}

// The judge. Any bytes are taken.
pub fn judge(t: &[u8], list: &[u8]) -> Result<Judgement, Refused>
    ensures { Judges t.now list.now result }
{
    let table = Table::check(t)?;
    judge_good(&table, list)
}
