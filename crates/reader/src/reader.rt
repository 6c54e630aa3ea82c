// A line, and what it says.
ghost use Rattle.std.specs.Prelude.{◌≡◌};
ghost use Rattle.names.specs.FirstWord.{start_as};
ghost use Rattle.reader.specs.Reader.{alone_line, started_line, read_line};
ghost use Rattle.reader.specs.Results.{line_as};

use crate::Line;
use crate::command::{command_line, end_line};
use crate::raw::raw_line;
use names::first_word::start_of;
use names::{FirstWord, Says};
use values::sources::part_of;
use values::{Answers, NO_BYTES};
use words::split::{quote_before, word_at};
use words::{Expected, Word, Wrong};

// A word that stands alone.
#[tactic(auto, unfolding(crate::specs::Reader::alone_line))]
fn alone(says: Says, line: &[u8], at: usize) -> Result<Line, Wrong>
    ensures { line_as result ≡ alone_line says line.now at }
{
    end_line(line, Ok(Line::so_far(says, 0, at, NO_BYTES)))
}

// The first word stands from `from` to `at`.
#[tactic(auto, unfolding(crate::specs::Reader::started_line, crate::specs::Reader::says_line))]
fn started(
    line: &[u8],
    answers: Answers,
    from: usize,
    at: usize,
    first: Option<FirstWord>,
) -> Result<Line, Wrong>
    ensures { line_as result ≡ started_line line.now answers.entry.kept.now answers.entry.ends.now from at (start_as first) }
{
    let begins = first.ok_or(Wrong::at(from, Expected::Name))?;
    match begins {
        FirstWord::Command(tag) => command_line(tag, line, answers, at),
        FirstWord::Raw => raw_line(line, at),
        FirstWord::Help => alone(Says::Help, line, at),
        FirstWord::Who => alone(Says::Who, line, at),
        FirstWord::Quit => alone(Says::Quit, line, at),
    }
}

// What a line says.
#[tactic(auto, unfolding(crate::specs::Reader::read_line, crate::specs::Reader::first_word))]
pub fn read_line(line: &[u8], answers: Answers) -> Result<Line, Wrong>
    ensures { line_as result ≡ read_line line.now answers.entry.kept.now answers.entry.ends.now }
{
    match word_at(line, 0) {
        Word::PlainWord { start, end } => started(
            line,
            answers,
            start,
            end,
            start_of(part_of(line, start, end)),
        ),
        Word::TextWord { start, .. } => Err(Wrong::at(quote_before(start), Expected::Name)),
        Word::Broken { at, expected } => Err(Wrong { at, expected }),
        Word::NoWord { at } => Ok(Line::so_far(Says::Nothing, 0, at, NO_BYTES)),
    }
}
