// What `out` is filled with. All functions here are inner.
ghost use Rattle.std.specs.Prelude.{◌≡◌, [], ◌∷◌};

use table::Told;

// Three counts. By `as`: no From leads from usize to u64.
pub fn counts(n: [usize; 3]) -> [u64; 3]
    ensures { result ≡ n }
{
    n.map(|x| x as u64)
}

// A refusal's numbers: which it is, the input, and the place in it.
pub fn refused(told: Told) -> [u64; 3]
    ensures { result ≡ told.number ∷ told.input ∷ told.place ∷ [] }
{
    counts([told.number, told.input, told.place])
}
