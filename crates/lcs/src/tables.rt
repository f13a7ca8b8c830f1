// The call on tables.
ghost use Rattle.std.specs.Prelude.{◌≡◌};
ghost use Rattle.table.specs.Answers.{table_answer};
ghost use Rattle.lcs.specs.Tables.{table_code, table_out};

use crate::outs::{counts, refused};
use table::{Told, check_table};

// Whether the bytes are a good table: its counts, or the refusal.
#[tactic(auto, unfolding(table::specs::Answers::table_answer))]
pub fn lcs_check_table(table: &[u8], out: &mut [u64; 3]) -> u32
    ensures value { result ≡ table_code (table_answer table.now) }
    ensures out_after { out.new ≡ table_out (table_answer table.now) }
{
    let (code, numbers) = match check_table(table) {
        Ok(shape) => (0, counts([shape.states, shape.transitions, shape.bads])),
        Err(refusal) => (4, refused(Told::from(refusal))),
    };
    *out = numbers;
    code
}
