// The lines that the programs write.
ghost use Rattle.std.specs.Prelude.{◌+◌, ◌≤◌, length};
ghost use Rattle.wording.specs.Lines.{line_of};
ghost use Rattle.wording.specs.Answers.{text_of};
ghost use Rattle.wording.specs.Written.{Written};

use crate::texts::{write_bytes, write_number};
use table::Told;

// A line of one of the programs; beside each, what it may look like.
#[derive(Clone, Copy, Debug, PartialEq, Eq)]
pub enum Line {
    // "safe rows 3"
    Safe(usize),
    // "unsafe rows 4 steps 3"
    Unsafe {
        rows: usize,
        steps: usize,
    },
    // "rows full at 1 1"
    RowsFull {
        row: usize,
        transition: usize,
    },
    // "atoms full at 24 0"
    AtomsFull {
        row: usize,
        transition: usize,
    },
    // "refused 1 at 0"
    Refused {
        number: usize,
        place: usize,
    },
    // "too long"
    TooLong,
    // "list bytes 23"
    ListBytes(usize),
    // "accepted"
    Accepted,
    // "no start"
    NoStart,
    // "bad row 2"
    BadRow(usize),
    // "not closed 1 1"
    NotClosed {
        row: usize,
        transition: usize,
    },
    // "reaches bad 3"
    ReachesBad(usize),
    // "stuck 2"
    Stuck(usize),
    // "ends elsewhere 1"
    Elsewhere(usize),
    // "no run at line 3"
    NoRun(usize),
    // "refused 4 input 1 at 7"
    InputRefused {
        number: usize,
        input: usize,
        place: usize,
    },
    // "table too long"
    LongTable,
    // "list too long"
    LongList,
    // "run too long"
    LongRun,
}

// The line of a refusal, with its input.
impl From<Told> for Line {
    ghost use Rattle.std.specs.Prelude.{◌≡◌};
    ghost use Rattle.wording.specs.declared.lines.Line.TheVariants.{InputRefused};

    ghost from_gives = { λ told line. line ≡ InputRefused told.number told.input told.place };

    fn from(told: Told) -> Line {
        let Told {
            number,
            input,
            place,
        } = told;
        Line::InputRefused {
            number,
            input,
            place,
        }
    }
}

// Writes a line of texts, each with a number behind it. Inner.
pub fn write_line(out: &mut [u8], at: usize, parts: &[(&str, usize)]) -> usize
    requires { at + length (line_of parts.now) ≤ length out.old }
    ensures { Written out.old at (line_of parts.now) out.new result }
{
    let mut end = at;
    for (text, n) in parts {
        end = write_bytes(out, end, text.as_bytes());
        end = write_number(out, end, *n);
    }
    write_bytes(out, end, b"\n")
}

impl Line {
    // Writes the line. No `Display`: the library says of what `fmt` writes only where it answers Ok, and this clause has no such case. Inner.
    pub fn write(self, out: &mut [u8], at: usize) -> usize
        requires { at + length (text_of self) ≤ length out.old }
        ensures { Written out.old at (text_of self) out.new result }
    {
        match self {
            Line::Safe(rows) => write_line(out, at, &[("safe rows ", rows)]),
            Line::Unsafe { rows, steps } => {
                write_line(out, at, &[("unsafe rows ", rows), (" steps ", steps)])
            }
            Line::RowsFull { row, transition } => {
                write_line(out, at, &[("rows full at ", row), (" ", transition)])
            }
            Line::AtomsFull { row, transition } => {
                write_line(out, at, &[("atoms full at ", row), (" ", transition)])
            }
            Line::Refused { number, place } => {
                write_line(out, at, &[("refused ", number), (" at ", place)])
            }
            Line::TooLong => write_bytes(out, at, b"too long\n"),
            Line::ListBytes(bytes) => write_line(out, at, &[("list bytes ", bytes)]),
            Line::Accepted => write_bytes(out, at, b"accepted\n"),
            Line::NoStart => write_bytes(out, at, b"no start\n"),
            Line::BadRow(row) => write_line(out, at, &[("bad row ", row)]),
            Line::NotClosed { row, transition } => {
                write_line(out, at, &[("not closed ", row), (" ", transition)])
            }
            Line::ReachesBad(steps) => write_line(out, at, &[("reaches bad ", steps)]),
            Line::Stuck(step) => write_line(out, at, &[("stuck ", step)]),
            Line::Elsewhere(state) => write_line(out, at, &[("ends elsewhere ", state)]),
            Line::NoRun(line) => write_line(out, at, &[("no run at line ", line)]),
            Line::InputRefused {
                number,
                input,
                place,
            } => write_line(
                out,
                at,
                &[("refused ", number), (" input ", input), (" at ", place)],
            ),
            Line::LongTable => write_bytes(out, at, b"table too long\n"),
            Line::LongList => write_bytes(out, at, b"list too long\n"),
            Line::LongRun => write_bytes(out, at, b"run too long\n"),
        }
    }
}
