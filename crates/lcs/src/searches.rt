// The call that searches a table.
ghost use Rattle.std.specs.Prelude.{◌≡◌};
ghost use Rattle.common.specs.Front.{front};
ghost use Rattle.work.specs.Layout.{all_words};
ghost use Rattle.lcs.specs.Searches.{searched, search_code, search_out};

use crate::outs::{counts, refused};
use search::searches::{Verdict, search};
use table::Told;

// The search's verdict or the refusal, with its rows in the first words of the work table, and with unsafe the run in those of the run buffer.
pub fn lcs_search(table: &[u8], work: &mut [u16], run: &mut [u16], out: &mut [u64; 3]) -> u32
    ensures value { result ≡ search_code (searched table.now work.old run.old) }
    ensures out_after { out.new ≡ search_out (searched table.now work.old run.old) }
    ensures work_after { work.new ≡ front (all_words (searched table.now work.old run.old).rows) work.old }
    ensures run_after { run.new ≡ front (searched table.now work.old run.old).run run.old }
{
    let (code, numbers) = match search(table, work, run) {
        Ok(Verdict::Safe(rows)) => (0, counts([rows, 0, 0])),
        Ok(Verdict::Unsafe { rows, steps }) => (1, counts([rows, steps, 0])),
        Ok(
            Verdict::RowsFull {
                rows,
                row,
                transition,
            },
        ) => (2, counts([rows, row, transition])),
        Ok(
            Verdict::AtomsFull {
                rows,
                row,
                transition,
            },
        ) => (3, counts([rows, row, transition])),
        Err(refusal) => (4, refused(Told::from(refusal))),
    };
    *out = numbers;
    code
}
