// The call that writes a list.
ghost use Rattle.std.specs.Prelude.{◌≡◌, length};
ghost use Rattle.writer.specs.Writing.{written, left_by, bytes_of};

use crate::fitting::first_unfit;
use crate::placing::write_rows;
use crate::sizes::list_size;
use crate::words::{FitRows, Rows};
use table::{Refusal, Table, Told};
use work::reading::room_of;

// Why no list is written: the table's refusal; the lowest row that cannot be written, or the room where the count is over it; or how many bytes
// the list needs where it does not fit.
#[derive(Clone, Copy, Debug, PartialEq, Eq)]
pub enum Refused {
    Table(Refusal),
    BadRow(usize),
    TooSmall(usize),
}

impl From<Refusal> for Refused {
    ghost use Rattle.writer.specs.declared.calls.Refused.TheVariants.{Table};

    ghost from_gives = { λ refusal refused. refused ≡ Table refusal };

    fn from(refusal: Refusal) -> Refused {
        Refused::Table(refusal)
    }
}

// The work table and the list's bytes are input 3; the place is the row's number, or how many bytes are needed.
impl From<Refused> for Told {
    ghost use Rattle.std.specs.Prelude.{Err};
    ghost use Rattle.table.specs.Answers.{refusal_told};
    ghost use Rattle.writer.specs.Answers as writer;

    ghost from_gives = { λ refused told. writer.answer (Err refused) ≡ writer.refused (refusal_told told) };

    fn from(refused: Refused) -> Told {
        match refused {
            Refused::Table(refusal) => Told::from(refusal),
            Refused::BadRow(row) => Told {
                number: 9,
                input: 3,
                place: row,
            },
            Refused::TooSmall(needed) => Told {
                number: 10,
                input: 3,
                place: needed,
            },
        }
    }
}

// Writes the list of the first rows of a work table to the front of list, and answers how many bytes it has. Any bytes, words and count are
// taken.
pub fn write_list(t: &[u8], work: &[u16], rows: usize, list: &mut [u8]) -> Result<usize, Refused>
    ensures value { result ≡ written t.now work.now rows (length list.old) }
    ensures list_after { list.new ≡ left_by result (bytes_of t.now work.now rows) list.old }
{
    let table = Table::check(t)?;
    let room = room_of(work.len());
    if room < rows {
        return Err(Refused::BadRow(room));
    }
    let rows = Rows { work, count: rows };
    if let Some(i) = first_unfit(&rows, table.shape) {
        return Err(Refused::BadRow(i));
    }
    let rows = FitRows {
        rows,
        channels: table.shape.channels,
    };
    let size = list_size(&rows);
    if list.len() < size {
        return Err(Refused::TooSmall(size));
    }
    write_rows(&rows, list);
    Ok(size)
}
