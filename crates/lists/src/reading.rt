// The list reader over the whole list. All functions here are inner.
ghost use Rattle.std.specs.Prelude.{◌≡◌, ◌≤◌, length};
ghost use Rattle.lists.specs.Reading.{check_list};
ghost use Rattle.lists.specs.Loading.{ListTold, memory};

use crate::records::{Filled, read_row};
use table::{Refusal, Shape};

// Reads a list for a table of that shape, and answers how many rows it has. A good list's rows are left in states, starts and atoms. It takes any shape
// within the limits, and no Table, which would ask for its bytes too. Inner.
#[tactic(auto, using(crate::proofs::ListLaws::row_turns), unfolding(crate::specs::Steps::RowTold))]
pub fn read_list(
    list: &[u8],
    s: Shape,
    states: &mut [usize],
    starts: &mut [usize],
    atoms: &mut [u16],
) -> Result<usize, Refusal>
    requires channels_bound { (s.channels ≤ 4) × (s.messages ≤ 15) }
    requires in_bounds { (1024 ≤ length states.old) × (4097 ≤ length starts.old) × (98304 ≤ length atoms.old) }
    ensures value { result ≡ check_list s list.now }
    ensures list_told { ListTold result s list.now (memory states.old starts.old atoms.old) (memory states.new starts.new atoms.new) }
{
    starts[0] = 0;
    let mut at: usize = 0;
    let mut m = Filled {
        rows: 0,
        products: 0,
        atoms: 0,
    };
    // No index counts here: each record says where the next one stands.
    while at < list.len() {
        let row = read_row(list, s, at, m, states, starts, atoms);
        let next = row.map_err(|fault| Refusal { fault, at })?;
        at = next.at;
        m = Filled {
            rows: m.rows + 1,
            products: m.products + s.channels,
            atoms: next.atoms,
        };
    }
    Ok(m.rows)
}
