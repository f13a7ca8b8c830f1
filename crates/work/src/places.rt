// Where the words of a row stand: state, parent row and transition, then for each channel a count and the places of its atoms.
ghost use Rattle.std.specs.Prelude.{◌≡◌, ◌<◌, ◌^◌};
ghost use Rattle.work.specs.Layout.{count_place};

// The most rows that a work table has, and the words of each.
pub const ROWS: usize = 1024;

pub const ROW: usize = 103;

// The words before the channels, the channels, and the words of each: its count and its atoms' places.
pub const HEAD: usize = 3;

pub const CHANNELS: usize = 4;

pub const CHANNEL: usize = 25;

// Where the count of a channel of a row stands; its atoms stand behind it. Inner.
pub fn count_place(row: usize, channel: usize) -> usize
    requires { count_place row channel < 2 ^ 64 }
    ensures { result ≡ count_place row channel }
{
    ROW * row + HEAD + CHANNEL * channel
}
