// Going back over a move: a receive puts its message in front; a send drops it from the end if it stands there (kept), else the message was lost; a
// self-loop send strips all that stand at the end, and becomes as many kept sends.
ghost use Rattle.std.specs.Prelude.{◌≡◌, true, false, ◌-◌, ◌<◌, ◌≤◌, length};
ghost use Rattle.meaning.specs.Systems.{send};
ghost use Rattle.table.specs.Systems.{system_of};
ghost use Rattle.findings.specs.Rebuild.{stripped, back, back_over};
ghost use Rattle.back.specs.Needs.{needed, Needed, Went};

use crate::needs::Needs;
use crate::tails::Tail;
use playing::Step;
use table::{Operation, Table};

// A run that is rebuilt from its end: what the channels must hold before its words, and the words.
#[derive(Drop)]
pub struct Rebuilding {
    pub needs: Needs,
    pub run: Tail,
}

impl Rebuilding {
    // The end: nothing is needed, and no word stands there. Inner.
    pub fn new() -> Rebuilding
        ensures no_needs { Needed 0 result.needs }
        ensures no_words { result.run.at ≡ 2048 }
    {
        Rebuilding {
            needs: Needs::none(),
            run: Tail::new(),
        }
    }

    // Back over a self-loop send with the run word x: as often as a message drops. Inner.
    fn strip_sends(&mut self, channel: usize, message: usize, x: u16)
        requires few_needed { (channel < 4) × Needed 2047 self.old.needs }
        requires room { length (needed self.old.needs channel) - length (stripped message (needed self.old.needs channel)) ≤ self.old.run.at }
        ensures { Went (back true (send channel message) x (needed self.old.needs)) self.old self.new }
    {
        while self.needs.drop_last(channel, message) {
            self.run.push(x);
        }
    }

    // Back over a send that is no self-loop, of transition j: its message is lost where it is not needed. Inner.
    fn back_send(&mut self, channel: usize, message: usize, j: usize)
        requires { (channel < 4) × Needed 2047 self.old.needs × (0 < self.old.run.at) × (j < 32768) }
        ensures { Went (back false (send channel message) j (needed self.old.needs)) self.old self.new }
    {
        let lost = !self.needs.drop_last(channel, message);
        self.run.push(u16::from(Step {
            transition: j,
            lost,
        }));
    }

    // Back over transition j. Inner.
    pub fn back_over(&mut self, table: &Table, j: usize)
        requires there { j < table.now.shape.transitions }
        requires few_needed { Needed 2047 self.old.needs }
        requires room { length (back_over (system_of table.now.bytes.now) j (needed self.old.needs)).words ≤ self.old.run.at }
        ensures { Went (back_over (system_of table.now.bytes.now) j (needed self.old.needs)) self.old self.new }
    {
        let m = table.transition(j);
        let word = u16::from(Step {
            transition: j,
            lost: false,
        });
        match m.operation {
            Operation::Quiet => self.run.push(word),
            Operation::Send { channel, message } => {
                if m.source == m.target {
                    self.strip_sends(channel, message, word);
                } else {
                    self.back_send(channel, message, j);
                }
            }
            Operation::Receive { channel, message } => {
                self.needs.put_front(channel, message);
                self.run.push(word);
            }
        }
    }
}
