// The call that replays a run.
ghost use Rattle.std.specs.Prelude.{◌≡◌};
ghost use Rattle.replay.specs.Replaying.{replay_answer};
ghost use Rattle.lcs.specs.Replays.{replay_code, replay_out};

use crate::outs::{counts, refused};
use replay::{Ending, replay};
use table::Told;

// What the run comes to when all its words are played, or the refusal.
pub fn lcs_replay(table: &[u8], run: &[u16], out: &mut [u64; 3]) -> u32
    ensures value { result ≡ replay_code (replay_answer table.now run.now) }
    ensures out_after { out.new ≡ replay_out (replay_answer table.now run.now) }
{
    let (code, numbers) = match replay(table, run) {
        Ok(Ending::Bad(steps)) => (0, counts([steps, 0, 0])),
        Ok(Ending::Elsewhere(state)) => (1, counts([state, 0, 0])),
        Ok(Ending::Stuck(step)) => (2, counts([step, 0, 0])),
        Err(refusal) => (4, refused(Told::from(refusal))),
    };
    *out = numbers;
    code
}
