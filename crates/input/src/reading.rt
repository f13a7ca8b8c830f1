// Bytes read into a lent buffer until the input ends. No contract can say which bytes: a read promises only how many.
ghost use Rattle.std.specs.Prelude.{◌≡◌, ◌≤◌, length, take, IfOk};
ghost use Rattle.input.specs.Reading.{Between};

use std::io;
use std::io::Read;

// Reads once, into the places from `at` on, and leaves those before as they are. A read that failed is no end: what came before it may be only
// part of the input. Inner.
fn read_on<R: Read>(reader: &mut R, buffer: &mut [u8], at: usize) -> io::Result<usize>
    requires { at ≤ length buffer.old }
    ensures between { IfOk result (Between at (length buffer.old)) }
    ensures buffer_unchanged { take at buffer.new ≡ take at buffer.old }
{
    let got = reader.read(&mut buffer[at..])?;
    Ok(at + got)
}

// Reads until the input ends or the buffer is full. Each turn but the last fills a place, so it ends; how many is what the read brought, so there is no
// `for`. The first bytes of the buffer, up to the place that it answers, are the input's. Inner.
pub fn read_input<R: Read>(reader: &mut R, buffer: &mut [u8]) -> io::Result<usize>
    ensures { IfOk result (Between 0 (length buffer.old)) }
{
    let mut at = 0;
    while at < buffer.len() {
        let next = read_on(reader, buffer, at)?;
        if next == at {
            return Ok(at);
        }
        at = next;
    }
    Ok(at)
}
