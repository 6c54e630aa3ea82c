// What a line says, where it may have more letters than a line has.
ghost use Rattle.std.specs.Prelude.{◌≡◌};
ghost use Rattle.reader.specs.Results.{line_as};
ghost use Rattle.clerk.specs.Heard.{cut_at, heard};

use reader::Line;
use reader::reader::read_line;
use values::Answers;
use words::{Expected, Wrong};

// A line that goes on past its first n letters is wrong there, where it is not wrong before.
#[tactic(auto, unfolding(crate::specs::Heard::cut_at, crate::specs::Heard::wrong_before, reader::specs::Line::wrong_line))]
fn cut_at(said: Result<Line, Wrong>, n: usize) -> Result<Line, Wrong>
    ensures { line_as result ≡ cut_at (line_as said) n }
{
    match said {
        Err(wrong) if wrong.at < n => said,
        _ => Err(Wrong {
            at: n,
            expected: Expected::NothingMore,
        }),
    }
}

// `line` has the letters that found room, and `longer` says whether there are more.
#[tactic(auto, unfolding(crate::specs::Heard::heard))]
pub fn hear(line: &[u8], longer: bool, answers: Answers) -> Result<Line, Wrong>
    ensures { line_as result ≡ heard longer line.now answers.entry.kept.now answers.entry.ends.now }
{
    let said = read_line(line, answers);
    if longer {
        cut_at(said, line.len())
    } else {
        said
    }
}
