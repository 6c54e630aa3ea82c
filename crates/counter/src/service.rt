// A piece of stream carried out, at the desk with its answers in words.
ghost use Rattle.std.specs.Prelude.{◌≡◌, ◌++◌, length};
ghost use Rattle.printout.specs.Inked.{sheet, bearing, inked};
ghost use Rattle.printout.specs.Lines.{line};
ghost use Rattle.talk.specs.Replies.{words_of};
ghost use Rattle.counter.specs.Kept.{next, with_bytes};
ghost use Rattle.counter.specs.Holds.{text, books_as, with_books, at_desk, desk_as, left_as};
ghost use Rattle.counter.specs.Holds.{answered_with, told_with, turned_as, turn_with, carried_with};

use crate::kept::Books;
use clerk::replies::put_reply;
use io::write_all;
use printout::page::{Page, first_of};
use rules::Refusal;
use rules::answers::{number_of, state_after};
use session::run::{answer_to, shown};
use state::Facility;
use stream::Field;
use stream::fields::{field_at, value_at};

// Where a desk stands: its facility, how many answers it has given, and how far their bytes are kept.
#[derive(Clone, Copy)]
pub struct Desk {
    pub state: Facility,
    pub answers: usize,
    pub used: usize,
}

// What lasts from line to line: the facility, the password table and the output that it is lent, and its answers.
#[derive(Drop)]
pub struct Sitting<'a> {
    pub state: Facility,
    pub table: &'a mut [u8],
    pub out: &'a mut [u8],
    pub books: Books<'a>,
}

impl Sitting<'_> {
    // Where its desk stands now.
    pub fn desk(&self) -> Desk
        ensures { result ≡ record { state = self.now.state; answers = self.now.books.count; used = self.now.books.kept.filled } }
    {
        Desk {
            state: self.state,
            answers: self.books.count,
            used: self.books.kept.filled,
        }
    }
}

// What stands on a page.
pub fn text_of<'a>(page: &'a Page) -> &'a [u8]
    ensures { result.now ≡ text page.now }
{
    first_of(page.letters, page.filled)
}

// An answer is written at once, where that is wanted.
fn tell(speaks: bool, paper: &Page) {
    if speaks {
        write_all(1, text_of(paper));
    }
}

impl Books<'_> {
    // An answer put onto the paper, and kept.
    fn give(&mut self, tag: u8, number: u8, bytes: &[u8], paper: &mut Page)
        ensures books { self.new ≡ with_books (with_bytes bytes.now (books_as self.old)) self.old }
        ensures paper { paper.new ≡ inked (line (next self.old.count) tag number bytes.now ++ words_of tag number) paper.old }
    {
        self.keep(bytes);
        put_reply(paper, self.count, tag, number, bytes);
    }
}

// The command of this tag and value, with its answer; and the facility after it.
// (A sitting's parts one by one: of a sitting that is lent, no rule lets the books change while the output is read.)
#[tactic(auto, unfolding(crate::specs::Kept::booked, clerk::specs::Replies::reply))]
fn serve(
    state: Facility,
    table: &mut [u8],
    out: &mut [u8],
    books: &mut Books,
    tag: u8,
    value: &[u8],
    paper: &mut Page,
) -> Facility
    ensures desk { at_desk result table.new out.new books.new ≡ answered_with tag value.now (at_desk state table.old out.old books.old) }
    ensures books { books.new ≡ with_books (books_as books.new) books.old }
    ensures paper { paper.new ≡ inked (told_with tag value.now (at_desk state table.old out.old books.old)) paper.old }
{
    let answer = answer_to(state, table, out, tag, value);
    books.give(tag, number_of(&answer), shown(&answer, out), paper);
    state_after(state, &answer)
}

impl Sitting<'_> {
    // The command that stands at a place of the piece, with its answer from the start of the paper; and where the piece goes on.
    // A field that runs past the piece's end is 17, and the rest is not read.
    #[tactic(auto, using(stream::specs::Fields::value_whole), unfolding(crate::specs::Service::turn_at, crate::specs::Kept::booked, clerk::specs::Replies::reply, printout::specs::Inked::inked))]
    pub fn next_command(&mut self, piece: &[u8], at: usize, paper: &mut Page) -> usize
        ensures turn { turned_as self.new paper.new result ≡ turn_with piece.now at (desk_as self.old) paper.old.letters.now }
        ensures desk { self.new ≡ left_as (desk_as self.new) self.old }
        ensures paper { paper.new ≡ bearing (sheet paper.new) paper.old }
        ensures room { length paper.new.letters.now ≡ length paper.old.letters.now }
    {
        paper.filled = 0;
        match field_at(piece, at) {
            Field::Whole { tag, end, .. } => {
                let value = value_at(piece, at);
                self.state = serve(
                    self.state,
                    self.table,
                    self.out,
                    &mut self.books,
                    tag,
                    value,
                    paper,
                );
                end
            }
            Field::Cut { tag } => {
                self.books.give(tag, u8::from(Refusal::Cut), &[], paper);
                piece.len()
            }
            Field::End => piece.len(),
        }
    }

    // The commands of a piece, one after the other.
    pub fn carry_out(&mut self, speaks: bool, piece: &[u8], paper: &mut Page)
        ensures desk { self.new ≡ left_as (carried_with piece.now (desk_as self.old)) self.old }
        ensures paper { paper.new ≡ bearing (sheet paper.new) paper.old }
        ensures room { length paper.new.letters.now ≡ length paper.old.letters.now }
    {
        let mut at: usize = 0;
        // The place moves on by what stands there: nothing is counted here.
        while at < piece.len() {
            at = self.next_command(piece, at, paper);
            tell(speaks, paper);
        }
    }
}
