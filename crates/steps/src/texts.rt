// Words and numbers read at the front of a text. All functions here are inner.
ghost use Rattle.std.specs.Prelude.{◌≡◌, ◌<◌};
ghost use Rattle.steps.specs.Texts.{behind, digits_in, number_in, counted_in, read_as};
ghost use Rattle.steps.specs.Texts.{digit_of as digit_in};

// A number that was read, and the rest of the text behind it.
#[derive(Clone, Copy)]
pub struct Found<'a> {
    pub value: usize,
    pub rest: &'a [u8],
}

// Answers the value where the text begins with the word. Inner.
#[tactic(auto, using(crate::proofs::TextLaws::word_tells))]
pub fn read_word<'a>(text: &'a [u8], word: &[u8], value: usize) -> Option<Found<'a>>
    ensures { read_as result ≡ behind value word.now text.now }
{
    let rest = text.strip_prefix(word)?;
    Some(Found { value, rest })
}

// The digit that a byte says. Numbers are read by hand: the library's `parse` takes a plus sign and zeros in front, which are no numbers here. Inner.
#[tactic(auto, using(common::proofs::ChoiceLaws::choices), unfolding(crate::specs::Texts::digit_of))]
fn digit_of(byte: u8) -> Option<usize>
    ensures { result ≡ digit_in byte }
{
    match byte {
        b'0'..=b'9' => Some(usize::from(byte - b'0')),
        _ => None,
    }
}

// The digits at the front, behind a number that is read so far. Inner.
#[tactic(auto, using(crate::proofs::TextLaws::digit_turns))]
fn read_digits<'a>(text: &'a [u8], first: usize) -> Option<Found<'a>>
    requires { first < 32768 }
    ensures { read_as result ≡ digits_in first text.now }
{
    let mut value = first;
    for (i, byte) in text.iter().enumerate() {
        let Some(digit) = digit_of(*byte) else {
            return Some(Found {
                value,
                rest: &text[i..],
            });
        };
        value = 10 * value + digit;
        if 32767 < value {
            return None;
        }
    }
    Some(Found {
        value,
        rest: &text[text.len()..],
    })
}

// The number at the front. Inner.
#[tactic(auto, using(common::proofs::ChoiceLaws::choices, crate::proofs::TextLaws::digit_tells), unfolding(crate::specs::Texts::number_in))]
pub fn read_number<'a>(text: &'a [u8]) -> Option<Found<'a>>
    ensures { read_as result ≡ number_in text.now }
{
    let (first, rest) = text.split_first()?;
    match digit_of(*first)? {
        0 => Some(Found { value: 0, rest }),
        digit => read_digits(rest, digit),
    }
}

// The number behind a word at the front. Inner.
#[tactic(auto, unfolding(crate::specs::Texts::counted_in))]
pub fn read_counted<'a>(text: &'a [u8], word: &[u8]) -> Option<Found<'a>>
    ensures { read_as result ≡ counted_in word.now text.now }
{
    read_number(read_word(text, word, 0)?.rest)
}
