// What the desk says of a line that is not for the facility.
ghost use Rattle.std.specs.Prelude.{◌≡◌};
ghost use Rattle.printout.specs.Inked.{inked};
ghost use Rattle.reader.specs.Results.{line_as};
ghost use Rattle.clerk.specs.Told.{told, is_quit};

use crate::wrong::put_wrong;
use names::Says;
use printout::page::Page;
use reader::Line;
use state::Facility;
use talk::help::put_help;
use talk::who::put_who;
use words::Wrong;

// What is wrong with a bad line, whose number is given; who is active, in this state; help; and nothing for the others.
#[tactic(auto, using(printout::specs::Inked::inked_none), unfolding(crate::specs::Told::told, reader::specs::Line::wrong_line))]
pub fn put_told(page: &mut Page, number: usize, said: Result<Line, Wrong>, state: Facility)
    ensures { page.new ≡ inked (told number (line_as said) state.places) page.old }
{
    match said {
        Ok(good) => match good.says {
            Says::Help => put_help(page),
            Says::Who => put_who(page, state),
            Says::Nothing | Says::Command | Says::Raw | Says::Quit => {}
        },
        Err(wrong) => put_wrong(page, number, wrong),
    }
}

#[tactic(auto, unfolding(crate::specs::Told::is_quit, reader::specs::Line::wrong_line))]
pub fn is_quit(said: Result<Line, Wrong>) -> bool
    ensures { result ≡ is_quit (line_as said) }
{
    match said {
        Ok(good) => matches!(good.says, Says::Quit),
        Err(_) => false,
    }
}
