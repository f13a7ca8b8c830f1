// What the channels must hold, in local memory: 2,048 places for each of 4 channels, filled from the last place down, and the ends of what stands
// there. The heads stand in the first four places of the ends, the tails in the next four, as the shared definition of the channels'
// contents reads them. The replay has a struct of the same parts: one type would have four methods of which each of the two uses two, and ends that move one
// way for each. That few messages were put in front stays a clause of each method: with each move that is gone back over there can be one more, so that
// a type would need the number of the move.
ghost use Rattle.std.specs.Prelude.{◌<◌};
ghost use Rattle.back.specs.Needs.{Needed, PutFront, DropLast};

#[derive(Drop)]
pub struct Needs {
    pub store: [u8; 8192],
    pub ends: [usize; 8],
}

impl Needs {
    // Nothing is needed. Inner.
    pub fn none() -> Needs
        ensures { Needed 0 result }
    {
        Needs {
            store: [0; 8192],
            ends: [2048; 8],
        }
    }

    // Puts a message in front of its channel's needed word. Inner.
    pub fn put_front(&mut self, channel: usize, message: usize)
        requires { (channel < 4) × (message < 256) × Needed 2047 self.old }
        ensures { PutFront channel message self.old self.new }
    {
        let head = self.ends[channel] - 1;
        self.store[2048 * channel + head] = message as u8;
        self.ends[channel] = head;
    }

    // Drops a message from the end of its channel's needed word, if it stands there; says whether it did. Inner.
    pub fn drop_last(&mut self, channel: usize, message: usize) -> bool
        requires { (channel < 4) × Needed 2047 self.old }
        ensures { DropLast channel message self.old self.new result }
    {
        let tail = self.ends[4 + channel];
        if tail <= self.ends[channel] {
            return false;
        }
        let last = tail - 1;
        if usize::from(self.store[2048 * channel + last]) != message {
            return false;
        }
        self.ends[4 + channel] = last;
        true
    }
}
