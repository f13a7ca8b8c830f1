// What a run word says, and the word of a step.
ghost use Rattle.std.specs.Prelude.{◌≡◌};
ghost use Rattle.playing.specs.Play.{number, lost, word_of};

// One step of a run: the number of its transition, and whether its message is lost at once.
#[derive(Clone, Copy, Debug, PartialEq, Eq)]
pub struct Step {
    pub transition: usize,
    pub lost: bool,
}

// A word is the transition's number, plus 32,768 where the message is lost.
impl From<u16> for Step {
    ghost from_gives = { λ word step. (step.transition ≡ number word) × (step.lost ≡ lost word) };

    fn from(word: u16) -> Step {
        Step {
            transition: usize::from(word % 32768),
            lost: 32767 < word,
        }
    }
}

// And back. A run's transitions have numbers below 32,768; a higher number's upper bits would stand where the mark does, and are left out.
impl From<Step> for u16 {
    ghost from_gives = { λ step word. word ≡ word_of step.transition step.lost };

    fn from(step: Step) -> u16 {
        let number = (step.transition % 32768) as u16;
        if step.lost { number + 32768 } else { number }
    }
}
