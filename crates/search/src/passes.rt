// The walk over the rows in order, and over each row's transitions in file order. Work table, count and buffer are as in visits.rt.
ghost use Rattle.std.specs.Prelude.{◌<◌, ◌≤◌, length};
ghost use Rattle.table.specs.Systems.{system_of};
ghost use Rattle.work.specs.Room.{room_of};
ghost use Rattle.search.specs.Standing.{Stands};
ghost use Rattle.search.specs.Visits.{Passes, Walks};

use crate::visits::{Stop, visit_move};
use table::Table;
use work::reading::state_of;

// The search ended at this row's transition, with so many rows.
#[derive(Clone, Copy, Debug, PartialEq, Eq)]
pub struct Ended {
    pub why: Stop,
    pub rows: usize,
    pub row: usize,
    pub transition: usize,
}

// Visits the transitions of row i in file order. Most come from other states: they are passed by with a look at their source. Answers how many rows
// there are then. Inner.
fn pass_row(
    table: &Table,
    w: &mut [u16],
    rows: usize,
    i: usize,
    buffer: &mut [u16],
) -> Result<usize, Ended>
    requires standing { Stands (system_of table.now.bytes.now) w.old rows }
    requires there { (i < rows) × (25 ≤ length buffer.old) }
    ensures { Passes (system_of table.now.bytes.now) (room_of (length w.old)) w.old rows i result w.new }
{
    let state = state_of(w, i);
    let mut made = rows;
    for j in 0..table.shape.transitions {
        if table.source(j) != state {
            continue;
        }
        match visit_move(table, w, made, i, j, buffer) {
            Ok(n) => made = n,
            Err(why) => {
                return Err(Ended {
                    why,
                    rows: made,
                    row: i,
                    transition: j,
                });
            }
        }
    }
    Ok(made)
}

// Passes over the rows in order, from row 0, which stands there, to the last that is made. Answers how many there are then. Inner.
pub fn walk_rows(table: &Table, w: &mut [u16], buffer: &mut [u16]) -> Result<usize, Ended>
    requires standing { Stands (system_of table.now.bytes.now) w.old 1 }
    requires buffer_there { 25 ≤ length buffer.old }
    ensures { Walks (system_of table.now.bytes.now) (room_of (length w.old)) w.old 1 result w.new }
{
    let mut made = 1;
    let mut i = 0;
    // No `for`: each pass can move the end of the walk.
    while i < made {
        made = pass_row(table, w, made, i, buffer)?;
        i += 1;
    }
    Ok(made)
}
