// A line's words.
ghost use Rattle.std.specs.Prelude.{◌≡◌, ◌-◌};
ghost use Rattle.words.specs.Split.{stops, text_at, starts_at, word_at};

use crate::letters::run_end;
use crate::{Class, Expected, Word};

// Whether a blank letter, `#` or the line's end stands there.
#[tactic(auto, unfolding(crate::specs::Split::stops))]
fn stops_at(line: &[u8], at: usize) -> bool
    ensures { result ≡ stops line.now at }
{
    run_end(line, at, Class::Plain) == at
}

// The text whose letters start there.
#[tactic(auto, unfolding(crate::specs::Split::text_at))]
fn text_at(line: &[u8], start: usize) -> Word
    ensures { result ≡ text_at line.now start }
{
    let end = run_end(line, start, Class::Text);
    if line.len() <= end {
        return Word::Broken {
            at: end,
            expected: Expected::ClosingQuote,
        };
    }
    if stops_at(line, end + 1) {
        return Word::TextWord { start, end };
    }
    Word::Broken {
        at: end + 1,
        expected: Expected::SpaceAfterQuote,
    }
}

#[tactic(auto, unfolding(crate::specs::Split::starts_at))]
fn starts_at(line: &[u8], start: usize) -> Word
    ensures { result ≡ starts_at line.now start }
{
    match line.get(start) {
        None | Some(b'#') => Word::NoWord { at: start },
        Some(b'"') => text_at(line, start + 1),
        Some(_) => Word::PlainWord {
            start,
            end: run_end(line, start, Class::Plain),
        },
    }
}

// The next word from there on.
#[tactic(auto, unfolding(crate::specs::Split::word_at))]
pub fn word_at(line: &[u8], at: usize) -> Word
    ensures { result ≡ word_at line.now at }
{
    starts_at(line, run_end(line, at, Class::Blank))
}

// How many letters there are from start to end.
pub fn span(start: usize, end: usize) -> usize
    ensures { result ≡ end - start }
{
    end.saturating_sub(start)
}

// Where the quote stands before the letters of a text.
pub fn quote_before(start: usize) -> usize
    ensures { result ≡ start - 1 }
{
    start.saturating_sub(1)
}
