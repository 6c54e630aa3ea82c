// A command: one word for each field, and nothing else.
ghost use Rattle.std.specs.Prelude.{◌≡◌, Ok};
ghost use Rattle.reader.specs.Command.{after, read_word, ended_line, command_line};
ghost use Rattle.reader.specs.Results.{line_as};

use crate::Line;
use names::Says;
use stream::commands::form_of;
use values::fields::{value_of, with_value};
use values::{Answers, NO_BYTES};
use words::split::{quote_before, word_at};
use words::{Expected, Word, Wrong};

// Where the line goes on after a word.
#[tactic(auto, unfolding(crate::specs::Command::after))]
fn after_word(length: usize, word: Word) -> usize
    ensures { result ≡ after length word }
{
    match word {
        Word::PlainWord { end, .. } => end,
        Word::TextWord { end, .. } => { if end < length { end + 1 } else { length } }
        Word::Broken { .. } => length,
        Word::NoWord { at } => at,
    }
}

// The line with one field more, if its next word says it.
#[tactic(auto, unfolding(crate::specs::Command::read_word, crate::specs::Command::took_word, crate::specs::Command::took_value, values::specs::Values::fitting, values::specs::Values::wrong))]
fn read_word(line: &[u8], answers: Answers, r: Line, field: u8) -> Result<Line, Wrong>
    ensures { line_as result ≡ read_word line.now answers.entry.kept.now answers.entry.ends.now (line_as (Ok r)) field }
{
    let word = word_at(line, r.at);
    let value = value_of(field, line, answers, word)?;
    let asked = with_value(field, value, line, answers.kept, r.asked);
    // Field 87 is the data.
    let bytes = if field == 0x87 { value.bytes } else { r.bytes };
    Ok(Line {
        at: after_word(line.len(), word),
        says: r.says,
        asked,
        bytes,
    })
}

// The line, if it is one and no word follows.
#[tactic(auto, unfolding(crate::specs::Command::ended_line, crate::specs::Command::nothing_else, crate::specs::Line::wrong_line))]
pub fn end_line(line: &[u8], r: Result<Line, Wrong>) -> Result<Line, Wrong>
    ensures { line_as result ≡ ended_line line.now (line_as r) }
{
    let read = r?;
    match word_at(line, read.at) {
        Word::PlainWord { start, .. } => Err(Wrong::at(start, Expected::NothingMore)),
        Word::TextWord { start, .. } => Err(Wrong::at(quote_before(start), Expected::NothingMore)),
        Word::Broken { at, expected } => Err(Wrong { at, expected }),
        Word::NoWord { .. } => Ok(read),
    }
}

// One word for each field of the command, in ascending tags, and nothing else.
#[tactic(auto, using(crate::proofs::Steps::words))]
pub fn command_line(tag: u8, line: &[u8], answers: Answers, at: usize) -> Result<Line, Wrong>
    ensures { line_as result ≡ command_line tag line.now answers.entry.kept.now answers.entry.ends.now at }
{
    let mut r = Line::so_far(Says::Command, tag, at, NO_BYTES);
    for field in form_of(tag).unwrap_or(&[]) {
        r = read_word(line, answers, r, *field)?;
    }
    end_line(line, Ok(r))
}
