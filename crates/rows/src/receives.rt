// What a receive leaves of a product.
ghost use Rattle.std.specs.Prelude.{◌≡◌, ◌<◌, ◌≤◌, length};
ghost use Rattle.atoms.specs.Receive.{received};
ghost use Rattle.rows.specs.Changes.{changed_to, FewLeft};

use atoms::products::received;

// A receive of m: what is left of the product, in the buffer's first words. Answers how many atoms that are; none where the receive is impossible.
// What is left of a product in normal form is in normal form. The buffer is a slice of at least 25 words, since that of outcome_into is one. Inner.
pub fn received_into(product: &[u16], m: usize, buffer: &mut [u16]) -> Option<usize>
    requires { (length product.now ≤ 24) × (25 ≤ length buffer.old) × (m < 15) }
    ensures buffer_after { changed_to result buffer.new ≡ received m product.now }
    ensures few_left { FewLeft result }
{
    let left = received(product, m)?;
    buffer[..left.len()].copy_from_slice(left);
    Some(left.len())
}
