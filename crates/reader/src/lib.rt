// What a line of words says.

#![tactic(auto)]

pub mod command;
pub mod raw;
pub mod reader;

ghost use Rattle.std.specs.Prelude.{◌≡◌, Ok};
ghost use Rattle.reader.specs.Line.{so_far};
ghost use Rattle.reader.specs.Results.{line_as};

use names::Says;
use stream::Request;
use values::Source;

// How far a good line has been read, and what it says. (What it says stands beside what is asked, and no enum holds both: `specs/Line` and the laws of lines speak of each by itself.)
#[derive(Clone, Copy)]
pub struct Line {
    pub at: usize,
    pub says: Says,
    pub asked: Request,
    pub bytes: Source,
}

impl Line {
    // One that says none of its fields yet.
    #[tactic(auto, unfolding(crate::specs::Line::so_far))]
    fn so_far(says: Says, tag: u8, at: usize, bytes: Source) -> Line
        ensures { line_as (Ok result) ≡ so_far says tag at bytes }
    {
        Line {
            at,
            says,
            asked: Request::blank(tag),
            bytes,
        }
    }
}
