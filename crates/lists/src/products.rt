// The products of a list row, read from its record into lent memory. All functions here are inner.
ghost use Rattle.std.specs.Prelude.{◌≡◌, ◌+◌, ◌*◌, ◌<◌, ◌≤◌, length};
ghost use Rattle.lists.specs.Reading.{read_many, read_atom, read_product};
ghost use Rattle.lists.specs.Loading.{products};
ghost use Rattle.lists.specs.Steps.{AtomTold, AtomsTold, ProductTold, ProductsTold};

use atoms::masks::is_atom;
use reader::numbers::byte_at;
use table::Fault;

// A record: where it starts, where its payload ends, and how many messages the table has. The definitions of what is read take a frame and the list
// apart, and hold for frames that are out of bounds too.
#[derive(Clone, Copy, Debug, PartialEq, Eq)]
pub struct Frame {
    pub at: usize,
    pub end: usize,
    pub messages: usize,
}

// How far reading has come: the place behind what was read, and the number of all atoms so far.
#[derive(Clone, Copy, Debug, PartialEq, Eq)]
pub struct Progress {
    pub at: usize,
    pub atoms: usize,
}

// A record with the list that holds it.
#[derive(Clone, Copy)]
pub struct Framed<'a> {
    pub list: &'a [u8],
    pub frame: Frame,
    pub ghost ends: { frame.end ≤ length list.now },
    pub ghost few: { frame.messages ≤ 15 },
}

impl Framed<'_> {
    // The atom at a place of the record. Inner.
    #[tactic(auto, using(common::proofs::ChoiceLaws::choices), unfolding(crate::specs::Reading::read_atom, reader::specs::Bytes::number_at))]
    fn read_atom(&self, from: usize) -> Result<u16, Fault>
        requires { (self.now.frame.at ≤ from) × (from ≤ self.now.frame.end) }
        ensures { AtomTold result (read_atom self.now.frame self.now.list.now from) (from + 2) }
    {
        if self.frame.end - from < 2 {
            return Err(Fault::Length);
        }
        let a = u16::from_le_bytes([self.list[from], self.list[from + 1]]);
        if !is_atom(a, self.frame.messages) {
            return Err(Fault::Field(from - self.frame.at));
        }
        Ok(a)
    }

    // Reads count atoms from a place on, to the places of atoms from `used` on. Inner.
    #[tactic(auto, using(crate::proofs::AtomLaws::atom_turns))]
    fn read_atoms(
        &self,
        from: usize,
        count: usize,
        used: usize,
        atoms: &mut [u16],
    ) -> Result<(), Fault>
        requires { (self.now.frame.at ≤ from) × (from ≤ self.now.frame.end) × (count ≤ 24) × (used + count ≤ length atoms.old) }
        ensures { AtomsTold result (read_many (read_atom self.now.frame self.now.list.now) count from) self.now.frame.end (from + 2 * count) count used atoms.old atoms.new }
    {
        for k in 0..count {
            atoms[used + k] = self.read_atom(from + 2 * k)?;
        }
        Ok(())
    }

    // Reads the product at a place of the record, to the places of atoms behind those so far. Inner.
    #[tactic(auto, using(common::proofs::ChoiceLaws::choices), unfolding(crate::specs::Reading::read_product))]
    fn read_product(&self, from: Progress, atoms: &mut [u16]) -> Result<Progress, Fault>
        requires { (self.now.frame.at ≤ from.at) × (from.at ≤ self.now.frame.end) × (from.atoms + 24 ≤ length atoms.old) }
        ensures { ProductTold result (read_product self.now.frame self.now.list.now from.at) self.now.frame.end from atoms.old atoms.new }
    {
        if self.frame.end <= from.at {
            return Err(Fault::Length);
        }
        let count = byte_at(self.list, from.at);
        if 24 < count {
            return Err(Fault::Field(from.at - self.frame.at));
        }
        self.read_atoms(from.at + 1, count, from.atoms, atoms)?;
        Ok(Progress {
            at: from.at + 1 + 2 * count,
            atoms: from.atoms + count,
        })
    }

    // Reads the products of all channels, from a place on: their atoms to the places of atoms behind those so far, and the place behind each
    // product's atoms to starts, behind its first `first` + 1. Inner.
    #[tactic(auto, using(crate::proofs::ProductLaws::product_turns))]
    pub fn read_products(
        &self,
        from: Progress,
        channels: usize,
        first: usize,
        starts: &mut [usize],
        atoms: &mut [u16],
    ) -> Result<Progress, Fault>
        requires inside { (self.now.frame.at ≤ from.at) × (from.at ≤ self.now.frame.end) × (channels ≤ 4) }
        requires room { (from.atoms + 96 ≤ length atoms.old) × (first + 5 ≤ length starts.old) }
        ensures { ProductsTold result (read_many (read_product self.now.frame self.now.list.now) channels from.at) self.now.frame.end from first (products starts.old atoms.old) (products starts.new atoms.new) }
    {
        let mut next = from;
        for c in 0..channels {
            next = self.read_product(next, atoms)?;
            starts[first + c + 1] = next.atoms;
        }
        Ok(next)
    }
}
