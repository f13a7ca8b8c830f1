// Bytes and numbers written from a place on. All functions here are inner. Buffer and place stay two parameters: most callers write one line from
// place 0 on, and a struct of both would have to be made and taken apart around that line.
ghost use Rattle.std.specs.Prelude.{◌+◌, ◌≤◌, length};
ghost use Rattle.wording.specs.Numbers.{number_text};
ghost use Rattle.wording.specs.Written.{Written};

// Writes a text as it is. Inner.
#[tactic(auto, using(crate::proofs::WrittenLaws::written_over))]
pub fn write_bytes(out: &mut [u8], at: usize, text: &[u8]) -> usize
    requires { at + length text.now ≤ length out.old }
    ensures { Written out.old at text.now out.new result }
{
    let end = at + text.len();
    out[at..end].copy_from_slice(text);
    end
}

// Writes a number in decimal digits, the last one behind those before it. Not by `write!`: the library says of its text only where it answers
// Ok, and writing here cannot fail. Inner.
#[tactic(auto, using(crate::proofs::NumberLaws::number_length_more))]
pub fn write_number(out: &mut [u8], at: usize, n: usize) -> usize
    requires { at + length (number_text n) ≤ length out.old }
    ensures { Written out.old at (number_text n) out.new result }
{
    let last = if n < 10 {
        at
    } else {
        write_number(out, at, n / 10)
    };
    out[last] = b'0' + (n % 10) as u8;
    last + 1
}
