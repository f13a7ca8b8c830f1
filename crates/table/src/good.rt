// A table that the check has found good, with its shape: what the later parts are handed, so that none checks it again.
ghost use Rattle.table.specs.Systems.{GoodTable};

use crate::checks::{Shape, check_table};
use crate::faults::Refusal;

#[derive(Clone, Copy)]
pub struct Table<'a> {
    pub bytes: &'a [u8],
    pub shape: Shape,
    pub ghost good: { GoodTable bytes.now shape },
}

impl<'a> Table<'a> {
    ghost use Rattle.std.specs.Prelude.{◌≡◌, IfOk, MatchResult, Ok, Err};
    ghost use Rattle.table.specs.Checking.{check_table};

    // The table check, with the bytes kept beside the shape. Any bytes are taken.
    pub fn check(bytes: &'a [u8]) -> Result<Table<'a>, Refusal>
        ensures kept { IfOk result (λ table. table.bytes ≡ bytes.entry) }
        ensures answer { MatchResult result (λ table. check_table bytes.now ≡ Ok table.shape) (λ refusal. check_table bytes.now ≡ Err refusal) }
    {
        let shape = check_table(bytes)?;
        Ok(Table { bytes, shape })
    }
}
