// The outcome of a move from a row, channel by channel: only the channel that it changes is copied. All functions here are inner. The
// buffer is a slice of at least 25 words and no array: docs/ARCHITECTURE.md names outcome_into, and an array would ask more of its callers.
ghost use Rattle.std.specs.Prelude.{◌≡◌, ◌<◌, ◌≤◌, length};
ghost use Rattle.meaning.specs.Systems.{Ranged};
ghost use Rattle.table.specs.Transitions.{operation_of};
ghost use Rattle.rows.specs.Changes.{changed_in, FewChanged};
ghost use Rattle.rows.specs.Outcomes.{after};
ghost use Rattle.judge.specs.Memory.{product_in};
ghost use Rattle.judge.specs.Outcomes.{Sent};

use crate::memory::Products;
use rows::{Changed, received_into, sent_atom};
use table::Operation;

// A send: the product with the atom added, in the buffer's first words. Answers how many atoms it has.
fn sent_into(product: &[u16], atom: u16, buffer: &mut [u16]) -> usize
    requires { (length product.now ≤ 24) × (25 ≤ length buffer.old) }
    ensures { Sent product.now atom buffer.new result }
{
    let n = product.len();
    buffer[..n].copy_from_slice(product);
    buffer[n] = atom;
    n + 1
}

// The outcome of an operation from row i, `loops` where it is a self-loop send's: the product that changes, in the buffer's first words; none where it is
// impossible.
// It and sent_into are not the functions of crate outcome: those keep products in normal form, which the judge does not ask of a list's rows. The match
// stands there too: one function would take the send with its promise as a parameter, and each crate's outcome_into (docs/ARCHITECTURE.md) would still
// stand around it.
pub fn outcome_into(
    products: &Products,
    i: usize,
    operation: Operation,
    loops: bool,
    buffer: &mut [u16],
) -> Option<Changed>
    requires i_lt_rows { (i < products.now.rows) × (25 ≤ length buffer.old) }
    requires ranged { Ranged products.now.channels 15 (operation_of operation) }
    ensures buffer_after { changed_in result (product_in products.now i) buffer.new ≡ after loops (operation_of operation) (product_in products.now i) }
    ensures few_changed { FewChanged result }
{
    match operation {
        // Channel 4 is none, as crate rows says beside Changed.
        Operation::Quiet => Some(Changed {
            channel: 4,
            count: 0,
        }),
        Operation::Send { channel, message } => {
            let atom = sent_atom(loops, message);
            let count = sent_into(products.product(i, channel), atom, buffer);
            Some(Changed { channel, count })
        }
        Operation::Receive { channel, message } => {
            let count = received_into(products.product(i, channel), message, buffer)?;
            Some(Changed { channel, count })
        }
    }
}
