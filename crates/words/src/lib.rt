// A line's letters and words.

#![tactic(auto)]

pub mod letters;
pub mod split;

ghost use Rattle.std.specs.Prelude.{◌≡◌};

// Kinds of letters: blank; those of a plain word; those of a text; digits; hex digits.
#[derive(Clone, Copy)]
pub enum Class {
    Blank,
    Plain,
    Text,
    Digit,
    Hex,
}

// What stands next in a line: a plain word or the letters of a text, with where they start and end; a text that is not as it should be; or no word.
#[derive(Clone, Copy)]
pub enum Word {
    PlainWord { start: usize, end: usize },
    TextWord { start: usize, end: usize },
    Broken { at: usize, expected: Expected },
    NoWord { at: usize },
}

// What was expected where a line stops being one.
#[derive(Clone, Copy)]
pub enum Expected {
    Name,
    Identifier,
    Interchange,
    Function,
    Block,
    Bytes,
    RawBytes,
    FewerBytes,
    ClosingQuote,
    SpaceAfterQuote,
    NothingMore,
}

// Where a line stops being one, and what was expected there.
#[derive(Clone, Copy)]
pub struct Wrong {
    pub at: usize,
    pub expected: Expected,
}

impl Wrong {
    pub fn at(at: usize, expected: Expected) -> Wrong
        ensures { result ≡ record { at = at; expected = expected } }
    {
        Wrong { at, expected }
    }
}
