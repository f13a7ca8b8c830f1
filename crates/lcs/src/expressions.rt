// The calls on products: contained, normal form, receive.
ghost use Rattle.std.specs.Prelude.{◌≡◌, ◌<◌, ◌≤◌, length};
ghost use Rattle.lcs.specs.Expressions.{is_product, contained_answer, NormalFront, normal_answer, normal_leaves, left_count, left_front, receive_answer, receive_leaves};
ghost use Rattle.atoms.specs.Masks.{Atoms};
ghost use Rattle.atoms.specs.Receive.{received};

use atoms::masks::all_atoms;
use atoms::products::{contained, normalise, received};

// What is answered where the words are no product, and where a receive is impossible.
const NO_PRODUCT: u32 = 65535;

const IMPOSSIBLE: u32 = 65534;

// The words are at most 25, and each is an atom.
#[tactic(auto, using(crate::proofs::ExpressionLaws::product_tells), unfolding(crate::specs::Expressions::is_product))]
fn is_product(p: &[u16]) -> bool
    ensures { result ≡ is_product p.now }
{
    p.len() <= 25 && all_atoms(p, 15)
}

// Whether every word of p is a word of q.
#[tactic(auto, using(common::proofs::ChoiceLaws::choices), unfolding(crate::specs::Expressions::contained_answer))]
pub fn lcs_contained(p: &[u16], q: &[u16]) -> u32
    ensures { result ≡ contained_answer p.now q.now }
{
    if !is_product(p) || !is_product(q) {
        return 2;
    }
    u32::from(contained(p, q))
}

// Brings the product to normal form in its first places. It is made in a copy, so that later places keep their values.
fn normal_front(p: &mut [u16]) -> usize
    requires { (length p.old ≤ 25) × Atoms p.old }
    ensures { NormalFront p.old p.new result }
{
    let mut copy = [0u16; 25];
    let front = &mut copy[..p.len()];
    front.copy_from_slice(p);
    let count = normalise(front);
    p[..count].copy_from_slice(&front[..count]);
    count
}

// p in normal form, in its first places.
#[tactic(auto, using(crate::proofs::ExpressionLaws::product_tells), unfolding(crate::specs::Expressions::normal_answer, crate::specs::Expressions::normal_leaves))]
pub fn lcs_normal(p: &mut [u16]) -> u32
    ensures value { result ≡ normal_answer p.old }
    ensures p_after { p.new ≡ normal_leaves p.old }
{
    if !is_product(p) {
        return NO_PRODUCT;
    }
    normal_front(p) as u32
}

// What a receive of m leaves of the product, in its first places; 65,534 if it is impossible.
fn receive_front(p: &mut [u16], m: usize) -> u32
    requires { (length p.old ≤ 25) × (m < 15) }
    ensures { (result ≡ left_count (received m p.old)) × (p.new ≡ left_front p.old (received m p.old)) }
{
    let n = p.len();
    match received(p, m) {
        None => IMPOSSIBLE,
        Some(left) => {
            let count = left.len();
            p.copy_within(n - count..n, 0);
            count as u32
        }
    }
}

// What a receive of the message leaves of p, in its first places.
#[tactic(auto, using(crate::proofs::ExpressionLaws::product_tells), unfolding(crate::specs::Expressions::receive_answer, crate::specs::Expressions::receive_leaves))]
pub fn lcs_receive(p: &mut [u16], message: u8) -> u32
    ensures value { result ≡ receive_answer p.old message }
    ensures p_after { p.new ≡ receive_leaves p.old message }
{
    if !is_product(p) {
        return NO_PRODUCT;
    }
    if 14 < message {
        return IMPOSSIBLE;
    }
    receive_front(p, usize::from(message))
}
