// The call that judges a list.
ghost use Rattle.std.specs.Prelude.{◌≡◌};
ghost use Rattle.judge.specs.Judging.{judge_answer};
ghost use Rattle.lcs.specs.Judges.{judge_code, judge_out};

use crate::outs::{counts, refused};
use judge::{Judgement, judge};
use table::Told;

// Whether the list is accepted for the table, or the first reason why not, or the refusal.
pub fn lcs_judge(table: &[u8], list: &[u8], out: &mut [u64; 3]) -> u32
    ensures value { result ≡ judge_code (judge_answer table.now list.now) }
    ensures out_after { out.new ≡ judge_out (judge_answer table.now list.now) }
{
    let (code, numbers) = match judge(table, list) {
        Ok(Judgement::Accepted) => (0, counts([0, 0, 0])),
        Ok(Judgement::NoStart) => (1, counts([0, 0, 0])),
        Ok(Judgement::BadRow(row)) => (2, counts([row, 0, 0])),
        Ok(Judgement::NotClosed { row, transition }) => (3, counts([row, transition, 0])),
        Err(refusal) => (4, refused(Told::from(refusal))),
    };
    *out = numbers;
    code
}
