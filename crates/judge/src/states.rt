// Looks over the states of a list's rows. All functions here are inner.
ghost use Rattle.std.specs.Prelude.{◌≡◌, length};
ghost use Rattle.judge.specs.States.{any_state, first_bad};

use table::Table;

// Some row is in the start state.
pub fn has_start(states: &[usize], start: usize) -> bool
    ensures { result ≡ any_state start states.now (length states.now) 0 }
{
    states.contains(&start)
}

// The lowest row whose state is bad.
pub fn lowest_bad(table: &Table, states: &[usize]) -> Option<usize>
    ensures { result ≡ first_bad table.now.bytes.now table.now.shape states.now (length states.now) 0 }
{
    states.iter().position(|state| table.is_bad(*state))
}
