// How many bytes rows take in a list. All functions here are inner.
ghost use Rattle.std.specs.Prelude.{◌≡◌, ◌+◌, ◌*◌, ◌<◌, ◌≤◌, length};
ghost use Rattle.lists.specs.Format.{payload_bytes, list_bytes};
ghost use Rattle.writer.specs.Words.{row_in, rows_in};

use crate::words::{FitRow, FitRows};

// The bytes of a row's payload: two of its state, one of each count, two of each atom. Inner.
pub fn payload_size(fit: &FitRow) -> usize
    ensures value { result ≡ length (payload_bytes fit.now.channels (row_in fit.now.channels fit.now.row.work.now fit.now.row.number)) }
    ensures upper_bound { result ≤ 198 }
{
    let mut atoms: usize = 0;
    for c in 0..fit.channels {
        atoms += fit.row.count(c);
    }
    2 + fit.channels + 2 * atoms
}

// The bytes of the list of the first rows. Inner.
pub fn list_size(rows: &FitRows) -> usize
    requires { rows.now.rows.count ≤ 1024 }
    ensures { result ≡ length (list_bytes rows.now.channels (rows_in rows.now.channels rows.now.rows.work.now rows.now.rows.count)) }
{
    let mut size: usize = 0;
    for i in 0..rows.rows.count {
        size += 4 + payload_size(&rows.row(i));
    }
    size
}
