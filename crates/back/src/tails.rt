// The words of a run that is rebuilt from its end: they stand from place `at` on, up to the end of their memory.
ghost use Rattle.std.specs.Prelude.{◌≡◌, ◌≤◌, length};

#[derive(Drop)]
pub struct Tail {
    pub words: [u16; 2048],
    pub at: usize,
    pub ghost full: { length words ≡ 2048 },
    pub ghost within: { at ≤ 2048 },
}

impl Tail {
    ghost use Rattle.std.specs.Prelude.{◌<◌};
    ghost use Rattle.back.specs.Needs.{standing, Pushed};

    // No word stands there yet. Inner.
    pub fn new() -> Tail
        ensures { result.at ≡ 2048 }
    {
        Tail {
            words: [0; 2048],
            at: 2048,
        }
    }

    // Puts a word in front of those that stand there. Inner.
    pub fn push(&mut self, x: u16)
        requires { 0 < self.old.at }
        ensures { Pushed x self.old self.new }
    {
        self.at -= 1;
        self.words[self.at] = x;
    }

    // The words that stand there. Inner.
    pub fn standing(&self) -> &[u16]
        ensures { result.now ≡ standing self.now }
    {
        &self.words[self.at..]
    }
}
