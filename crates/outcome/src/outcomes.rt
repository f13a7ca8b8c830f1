// The outcome of a move, channel by channel: only the channel that it changes is copied, and brought to normal form there. The buffer for it is a slice of
// at least 25 words and no array, as in the search: docs/ARCHITECTURE.md names outcome_into, and an array would ask more of its callers.
ghost use Rattle.std.specs.Prelude.{◌≡◌, ℕ, ◌<◌, ◌≤◌, length};
ghost use Rattle.atoms.specs.Normal.{normal};
ghost use Rattle.meaning.specs.Systems.{Ranged};
ghost use Rattle.table.specs.Transitions.{operation_of};
ghost use Rattle.rows.specs.Changes.{changed_in, FewChanged};
ghost use Rattle.rows.specs.Outcomes.{normal_after};
ghost use Rattle.outcome.specs.Look.{product_at};
ghost use Rattle.outcome.specs.Outcomes.{Sent};

use crate::reading::WorkRows;
use atoms::products::add_atom;
use rows::{Changed, Rows, received_into, sent_atom};
use table::Operation;
use work::places::CHANNELS;

// A send: the product, which is in normal form, with the atom added and brought to normal form, in the buffer's first words. Answers how many atoms
// it has. That a product is in normal form is no fact of a type: add_atom writes it in place, where it is so only between calls. Inner.
pub fn sent_into(product: &[u16], atom: u16, buffer: &mut [u16]) -> usize
    requires lengths { (length product.now ≤ 24) × (25 ≤ length buffer.old) }
    requires in_normal_form { normal product.now ≡ product.now }
    ensures { Sent product.now atom buffer.new result }
{
    let n = product.len();
    buffer[..n].copy_from_slice(product);
    add_atom(buffer, n, atom)
}

// The outcome of an operation from row i, `loops` where it is a self-loop send's: the product that changes, in the buffer's first words; none where
// the operation is impossible. The judge has such a match too: it keeps no normal form, and one function would take the send with its promise as a
// parameter, with the two named in docs/ARCHITECTURE.md still around it. Inner.
pub fn outcome_into(
    rows: &WorkRows,
    i: usize,
    operation: Operation,
    loops: bool,
    buffer: &mut [u16],
) -> Option<Changed>
    requires lengths { (i < rows.now.count) × (25 ≤ length buffer.old) }
    requires ranged { Ranged 4 15 (operation_of operation) }
    requires in_normal_form { (c : ℕ) → normal (product_at rows.now.words.now i c) ≡ product_at rows.now.words.now i c }
    ensures buffer_after { changed_in result (product_at rows.now.words.now i) buffer.new ≡ normal_after loops (operation_of operation) (product_at rows.now.words.now i) }
    ensures few_changed { FewChanged result }
{
    match operation {
        // Channel 4 is none, as crate rows says beside Changed.
        Operation::Quiet => Some(Changed {
            channel: CHANNELS,
            count: 0,
        }),
        Operation::Send { channel, message } => {
            let count = sent_into(rows.product(i, channel), sent_atom(loops, message), buffer);
            Some(Changed { channel, count })
        }
        Operation::Receive { channel, message } => {
            let count = received_into(rows.product(i, channel), message, buffer)?;
            Some(Changed { channel, count })
        }
    }
}
