// The search of a table. Any bytes and any lent words are taken.
ghost use Rattle.std.specs.Prelude.{◌≡◌, ◌*◌, ◌≤◌, length, Ok};
ghost use Rattle.table.specs.Systems.{system_of};
ghost use Rattle.work.specs.Room.{room_of};
ghost use Rattle.explore.specs.Search as explore;
ghost use Rattle.findings.specs.Search.{frame_of, first_entry};
ghost use Rattle.search.specs.Searching.{found_by, Leaves, Concluded, Searches};

use crate::passes::{Ended, walk_rows};
use crate::runs::LastVisit;
use crate::visits::Stop;
use table::{Refusal, Table, Told};
use work::appending::start_row;
use work::reading::room_of;

// What the search of a table finds: safe, with so many rows; unsafe, with so many rows and steps; no room for the outcome of that row's transition, or no
// row holds it, with so many rows.
#[derive(Clone, Copy, Debug, PartialEq, Eq)]
pub enum Verdict {
    Safe(usize),
    Unsafe {
        rows: usize,
        steps: usize,
    },
    RowsFull {
        rows: usize,
        row: usize,
        transition: usize,
    },
    AtomsFull {
        rows: usize,
        row: usize,
        transition: usize,
    },
}

// Why no table is searched: the table's refusal; a work table of that length is too short, or a run buffer.
#[derive(Clone, Copy, Debug, PartialEq, Eq)]
pub enum Refused {
    Table(Refusal),
    SmallWork(usize),
    SmallRun(usize),
}

impl From<Refusal> for Refused {
    ghost use Rattle.search.specs.declared.searches.Refused.TheVariants.{Table};

    ghost from_gives = { λ refusal refused. refused ≡ Table refusal };

    fn from(refusal: Refusal) -> Refused {
        Refused::Table(refusal)
    }
}

// A lent buffer is input 3, and its length the place.
impl From<Refused> for Told {
    ghost use Rattle.std.specs.Prelude.{Err};
    ghost use Rattle.table.specs.Answers.{refusal_told};
    ghost use Rattle.search.specs.Searching as search;

    ghost from_gives = { λ refused told. search.said (Err refused) ≡ search.refused (refusal_told told) };

    fn from(refused: Refused) -> Told {
        match refused {
            Refused::Table(refusal) => Told::from(refusal),
            Refused::SmallWork(words) => Told {
                number: 7,
                input: 3,
                place: words,
            },
            Refused::SmallRun(places) => Told {
                number: 8,
                input: 3,
                place: places,
            },
        }
    }
}

impl LastVisit<'_> {
    ghost use Rattle.search.specs.Runs.{system_at, rows_at};

    // The verdict that the search ended with; only with unsafe the run buffer is written. Inner.
    fn verdict(&self, run: &mut [u16]) -> Verdict
        requires room { 2 * room_of (length self.now.words.now) ≤ length run.old }
        ensures { Concluded (system_at self.now) (rows_at self.now) self.now.end.row self.now.end.transition self.now.end.why run.old (Ok result) run.new }
    {
        let Ended {
            why,
            rows,
            row,
            transition,
        } = self.end;
        match why {
            Stop::Unsafe => {
                let steps = self.write_run(run);
                Verdict::Unsafe { rows, steps }
            }
            Stop::AtomsFull => Verdict::AtomsFull {
                rows,
                row,
                transition,
            },
            Stop::RowsFull => Verdict::RowsFull {
                rows,
                row,
                transition,
            },
        }
    }
}

// The search where there is room and the start is not bad. Inner.
fn search_rows(table: &Table, work: &mut [u16], run: &mut [u16]) -> Verdict
    requires { (103 ≤ length work.old) × (2 * room_of (length work.old) ≤ length run.old) }
    ensures { Leaves (found_by (system_of table.now.bytes.now) (explore.search (frame_of (system_of table.now.bytes.now)) (room_of (length work.old)) (first_entry (system_of table.now.bytes.now)))) work.old run.old (Ok result) work.new run.new }
{
    start_row(work, table.shape.start as u16);
    let mut buffer = [0u16; 25];
    match walk_rows(table, work, &mut buffer) {
        Ok(rows) => Verdict::Safe(rows),
        Err(end) => {
            let last = LastVisit {
                table,
                words: work,
                end,
            };
            last.verdict(run)
        }
    }
}

// The search of a good table, for callers that have checked it: the lent words are enough, or they are refused. Inner.
pub fn search_good(table: &Table, work: &mut [u16], run: &mut [u16]) -> Result<Verdict, Refused>
    ensures { Searches table.now.bytes.now work.old run.old result work.new run.new }
{
    let words = work.len();
    if words < 103 {
        return Err(Refused::SmallWork(words));
    }
    let places = run.len();
    if places < 2 * room_of(words) {
        return Err(Refused::SmallRun(places));
    }
    if table.is_bad(table.shape.start) {
        return Ok(Verdict::Unsafe { rows: 0, steps: 0 });
    }
    Ok(search_rows(table, work, run))
}

// The search: its verdict, the rows in the work table, and with unsafe the run in the first words of the run buffer. The two are lent apart, as C lends them.
pub fn search(t: &[u8], work: &mut [u16], run: &mut [u16]) -> Result<Verdict, Refused>
    ensures { Searches t.now work.old run.old result work.new run.new }
{
    let table = Table::check(t)?;
    search_good(&table, work, run)
}
