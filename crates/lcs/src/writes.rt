// The call that writes a list.
ghost use Rattle.std.specs.Prelude.{◌≡◌, length};
ghost use Rattle.writer.specs.Writing.{written, bytes_of, left_by};
ghost use Rattle.writer.specs.Answers.{write_answer};
ghost use Rattle.lcs.specs.Writes.{write_code, write_out};

use crate::outs::{counts, refused};
use table::Told;
use writer::write_list;

// How many bytes the list of the first rows of the work table has, which stands in the first bytes of list, or the refusal.
#[tactic(auto, unfolding(writer::specs::Answers::write_answer))]
pub fn lcs_write_list(
    table: &[u8],
    work: &[u16],
    rows: u64,
    list: &mut [u8],
    out: &mut [u64; 3],
) -> u32
    ensures value { result ≡ write_code (write_answer table.now work.now rows (length list.old)) }
    ensures out_after { out.new ≡ write_out (write_answer table.now work.now rows (length list.old)) }
    ensures list_after { list.new ≡ left_by (written table.now work.now rows (length list.old)) (bytes_of table.now work.now rows) list.old }
{
    let (code, numbers) = match write_list(table, work, rows as usize, list) {
        Ok(bytes) => (0, counts([bytes, 0, 0])),
        Err(refusal) => (4, refused(Told::from(refusal))),
    };
    *out = numbers;
    code
}
