// Lines from standard input, letter by letter, so that each is answered before the next is waited for.
ghost use Rattle.std.specs.Prelude.{◌≡◌, true, List, ℕ};
ghost use Rattle.reader.specs.Results.{line_as};
ghost use Rattle.counter.specs.Input.{one_more, no_feed, line_in, is_last};
ghost use Rattle.counter.specs.Holds.{partly, coming};

use clerk::told::is_quit;
use io::read_full;
use printout::page::Page;
use reader::Line;
use words::Wrong;

// What has come of a line: how many letters found room, whether it has more, and whether its line feed has come.
// (Two marks, and no enum for how a line ended: it may have both, one or none; and `specs/Input.one_more` speaks of any two.)
#[derive(Clone, Copy)]
pub struct Got {
    pub letters: usize,
    pub longer: bool,
    pub complete: bool,
}

// A line as far as it has come, with its letters where it is lent room for them.
#[derive(Drop)]
pub struct Coming<'a> {
    pub letters: Page<'a>,
    pub longer: bool,
    pub complete: bool,
}

impl Coming<'_> {
    pub fn got(&self) -> Got
        ensures { result ≡ record { letters = self.now.letters.filled; longer = self.now.longer; complete = self.now.complete } }
    {
        Got {
            letters: self.letters.filled,
            longer: self.longer,
            complete: self.complete,
        }
    }

    // One letter more: the line feed, or a letter of the line.
    #[tactic(auto, unfolding(crate::specs::Input::one_more, printout::specs::Inked::inked, printout::specs::Page::entered))]
    pub fn take_letter(&mut self, letter: u8)
        ensures { self.new ≡ coming (one_more letter (partly self.old)) self.old }
    {
        self.complete = letter == b'\n';
        if self.complete {
            return;
        }
        let full = self.letters.letters.len() <= self.letters.filled;
        self.longer = self.longer || full;
        self.letters.put(letter);
    }
}

fn next_letter() -> Option<u8> {
    let mut one = [0u8; 1];
    if read_full(0, &mut one) == 1 {
        Some(one[0])
    } else {
        None
    }
}

// The next line, without its line feed; not complete where the input has ended.
// (What the input holds no contract can say: this one says that some line stands there.)
pub fn next_line(line: &mut [u8]) -> Coming<'_>
    ensures line { (l : List ℕ) × (no_feed l ≡ true) × (partly result ≡ line_in line.old result.complete l) }
    ensures lent { result.letters.letters.ghost_name ≡ line.entry.ghost_name }
{
    let mut got = Coming {
        letters: Page::new(line),
        longer: false,
        complete: false,
    };
    for _ in 0..u64::MAX {
        let Some(letter) = next_letter() else {
            return got;
        };
        got.take_letter(letter);
        if got.complete {
            return got;
        }
    }
    got
}

// "`quit`, or the input's end, ends the desk."
#[tactic(auto, unfolding(crate::specs::Input::is_last))]
pub fn is_last(complete: bool, said: Result<Line, Wrong>) -> bool
    ensures { result ≡ is_last complete (line_as said) }
{
    !complete || is_quit(said)
}
