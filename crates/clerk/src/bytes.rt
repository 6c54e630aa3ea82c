// A line's bytes in the stream: "for a command its field, for raw bytes those bytes".
ghost use Rattle.std.specs.Prelude.{◌≡◌, Ok};
ghost use Rattle.printout.specs.Inked.{inked};
ghost use Rattle.reader.specs.Results.{line_as};
ghost use Rattle.clerk.specs.Spoken.{command_bytes, spoken};

use encoder::put_command;
use names::Says;
use printout::page::{Page, first_of};
use reader::Line;
use values::sources::put_meant;
use words::Wrong;

// A command's data goes by a page of its own.
fn put_said(page: &mut Page, said: Line, line: &[u8], kept: &[u8])
    ensures { page.new ≡ inked (command_bytes (line_as (Ok said)) line.now kept.now) page.old }
{
    let mut room = [0u8; 65536];
    let mut data = Page::new(&mut room);
    put_meant(&mut data, said.bytes, line, kept);
    let filled = data.filled;
    put_command(page, said.asked, first_of(data.letters, filled));
}

// Nothing for a line that is bad, or that is for the desk.
#[tactic(auto, using(printout::specs::Inked::inked_none), unfolding(crate::specs::Spoken::spoken, reader::specs::Line::wrong_line))]
pub fn put_spoken(page: &mut Page, said: Result<Line, Wrong>, line: &[u8], kept: &[u8])
    ensures { page.new ≡ inked (spoken (line_as said) line.now kept.now) page.old }
{
    let Ok(good) = said else {
        return;
    };
    match good.says {
        Says::Command => put_said(page, good, line, kept),
        Says::Raw => put_meant(page, good.bytes, line, kept),
        Says::Nothing | Says::Help | Says::Who | Says::Quit => {}
    }
}
