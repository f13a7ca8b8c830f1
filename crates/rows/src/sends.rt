// The atom that a send adds.
ghost use Rattle.std.specs.Prelude.{◌≡◌, ◌<◌};
ghost use Rattle.rows.specs.Outcomes.{sent_atom};

use atoms::masks::{single_of, star_of};

// Of a self-loop send the star of its message, of another the single. Inner.
pub fn sent_atom(loops: bool, message: usize) -> u16
    requires { message < 15 }
    ensures { result ≡ sent_atom loops message }
{
    if loops {
        return star_of(message);
    }
    single_of(message)
}
