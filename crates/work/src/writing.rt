// Words of rows written. All functions here are inner.
ghost use Rattle.std.specs.Prelude.{◌≡◌, [], ◌∷◌, ◌+◌, ◌≤◌, length};
ghost use Rattle.common.specs.Store.{put_at};
ghost use Rattle.work.specs.Layout.{channel_words};

use crate::places::{CHANNEL, HEAD};

// Writes a product as a channel: its count, its atoms, and 0 in the atom places past the count. Inner.
pub fn write_channel(w: &mut [u16], at: usize, product: &[u16])
    requires { (at + 25 ≤ length w.old) × (length product.now ≤ 24) }
    ensures { w.new ≡ put_at w.old at (channel_words product.now) }
{
    let behind = at + 1 + product.len();
    w[at] = product.len() as u16;
    w[at + 1..behind].copy_from_slice(product);
    w[behind..at + CHANNEL].fill(0);
}

// What the first words of a row say: its state, and the row that it was made from, by which transition.
#[derive(Clone, Copy, Debug, PartialEq, Eq)]
pub struct Head {
    pub state: u16,
    pub parent: u16,
    pub transition: u16,
}

// Writes the first words of a row. Inner.
pub fn write_head(w: &mut [u16], at: usize, head: Head)
    requires { at + 3 ≤ length w.old }
    ensures { w.new ≡ put_at w.old at (head.state ∷ head.parent ∷ head.transition ∷ []) }
{
    w[at..at + HEAD].copy_from_slice(&[head.state, head.parent, head.transition]);
}
