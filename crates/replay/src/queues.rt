// The channels' contents in local memory.
ghost use Rattle.std.specs.Prelude.{◌≡◌, true, false, ◌<◌};
ghost use Rattle.table.specs.Transitions.{operation_of};
ghost use Rattle.meaning.specs.Systems.{Ranged, send, receive};
ghost use Rattle.replay.specs.Queues.{Queues, can_lose, Done};

use table::Operation;

// 2,048 places for each of 4 channels, which no run fills, and the ends of what waits there: the heads stand in the first four places of the
// ends, the tails in the next four, as the shared definition of the channels' contents reads them. The rebuilt run has a struct of the same two parts, which
// are all that they share: there the channels are filled from their last place, and its methods are other ones.
// That each channel has had at most 2,047 messages stays a clause: the number grows with each word played, so that a type would need the step's number.
#[derive(Drop)]
pub struct Memory {
    pub store: [u8; 8192],
    pub ends: [usize; 8],
}

// Whether an operation's message can be marked lost: only a send's.
fn can_lose(operation: Operation) -> bool
    ensures { result ≡ can_lose (operation_of operation) }
{
    matches!(operation, Operation::Send { .. })
}

impl Memory {
    // Every channel starts empty.
    pub fn empty() -> Memory
        ensures { Queues 0 result }
    {
        Memory {
            store: [0; 8192],
            ends: [0; 8],
        }
    }

    // Puts a message behind the others of its channel. Inner: there is room for it.
    fn send(&mut self, channel: usize, message: usize)
        requires { (channel < 4) × (message < 256) × Queues 2047 self.old }
        ensures { Done false (send channel message) self.old self.new true }
    {
        let tail = self.ends[4 + channel];
        self.store[2048 * channel + tail] = message as u8;
        self.ends[4 + channel] = tail + 1;
    }

    // Takes the message from the head of its channel, if it stands there.
    fn receive(&mut self, channel: usize, message: usize) -> bool
        requires { (channel < 4) × Queues 2047 self.old }
        ensures { Done false (receive channel message) self.old self.new result }
    {
        let head = self.ends[channel];
        let tail = self.ends[4 + channel];
        if head < tail && usize::from(self.store[2048 * channel + head]) == message {
            self.ends[channel] = head + 1;
            return true;
        }
        false
    }

    // Does an operation, `gone` where its message is marked lost, and says whether it can be done. A lost message is gone at its send.
    pub fn operate(&mut self, gone: bool, operation: Operation) -> bool
        requires { Ranged 4 15 (operation_of operation) × Queues 2047 self.old }
        ensures { Done gone (operation_of operation) self.old self.new result }
    {
        if gone {
            return can_lose(operation);
        }
        match operation {
            Operation::Quiet => true,
            Operation::Send { channel, message } => {
                self.send(channel, message);
                true
            }
            Operation::Receive { channel, message } => self.receive(channel, message),
        }
    }
}
