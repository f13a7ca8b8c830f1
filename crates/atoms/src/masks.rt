// Atoms as masks in a u16: bit 15 marks a star, bits 0 to 14 are messages. A message stays a plain number with the clause m < 15, and how many messages a
// table has one with n ≤ 15: operations, shapes and C's calls hold plain numbers, so that a type would be made around each call and read once.
ghost use Rattle.std.specs.Prelude.{◌≡◌, ◌<◌, ◌≤◌};
ghost use Rattle.std.specs.List.{list_all};
ghost use Rattle.atoms.specs.Masks.{star, has, sub, absorbs, atom_test, single_of, star_of};

// The atom is a star.
#[tactic(auto, using(crate::proofs::MaskLaws::mask_tells))]
pub fn is_star(a: u16) -> bool
    ensures { result ≡ star a }
{
    a & 32768 != 0
}

// The message m is in the atom.
#[tactic(auto, using(crate::proofs::MaskLaws::mask_tells))]
pub fn has_message(a: u16, m: usize) -> bool
    requires { m < 15 }
    ensures { result ≡ has a m }
{
    a >> m & 1 == 1
}

// Every message of a is in b, and b is a star where a is.
#[tactic(auto, unfolding(crate::specs::Masks::sub))]
pub fn within(a: u16, b: u16) -> bool
    ensures { result ≡ sub a b }
{
    a & b == a
}

// b is a star that has all messages of a.
#[tactic(auto, unfolding(crate::specs::Masks::absorbs))]
pub fn is_absorbed(a: u16, b: u16) -> bool
    ensures { result ≡ absorbs b a }
{
    is_star(b) && within(a, b)
}

// a is an atom of a table with n messages.
#[tactic(auto, using(common::proofs::ChoiceLaws::choices), unfolding(crate::specs::Masks::atom_test))]
pub fn is_atom(a: u16, n: usize) -> bool
    requires { n ≤ 15 }
    ensures { result ≡ atom_test n a }
{
    let s = a & 32767;
    if s == 0 || s >> n != 0 {
        return false;
    }
    is_star(a) || s & (s - 1) == 0
}

// Each word is an atom of a table with n messages.
pub fn all_atoms(p: &[u16], n: usize) -> bool
    requires { n ≤ 15 }
    ensures { result ≡ list_all (atom_test n) p.now }
{
    p.iter().all(|a| is_atom(*a, n))
}

// The single of m.
#[tactic(auto, using(crate::proofs::AtomLaws::one_message))]
pub fn single_of(m: usize) -> u16
    requires { m < 15 }
    ensures { result ≡ single_of m }
{
    1 << m
}

// The star of m alone.
#[tactic(auto, using(crate::proofs::AtomLaws::one_message))]
pub fn star_of(m: usize) -> u16
    requires { m < 15 }
    ensures { result ≡ star_of m }
{
    32768 | 1 << m
}
