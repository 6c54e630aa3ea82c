// A line served: heard with the answers kept so far, put into its bytes, and these carried out.
ghost use Rattle.std.specs.Prelude.{◌≡◌, length};
ghost use Rattle.printout.specs.Inked.{sheet, bearing};
ghost use Rattle.counter.specs.Holds.{desk_as, left_as, served_as, served_with};

use crate::service::{Sitting, text_of};
use clerk::bytes::put_spoken;
use clerk::heard::hear;
use printout::page::Page;
use reader::Line;
use words::Wrong;

impl Sitting<'_> {
    // `line` has the letters that found room, and `longer` says whether there are more. Its bytes fill the piece from its start;
    // a line that is bad, or for the desk, has none, and nothing is carried out.
    #[tactic(auto, using(crate::proofs::Pieces::put_over), unfolding(crate::specs::Line::served_line, printout::specs::Inked::inked))]
    pub fn serve_line(
        &mut self,
        speaks: bool,
        line: &[u8],
        longer: bool,
        piece: &mut Page,
        paper: &mut Page,
    ) -> Result<Line, Wrong>
        ensures served { served_as result piece.new self.new ≡ served_with longer line.now (length piece.old.letters.now) (desk_as self.old) }
        ensures desk { self.new ≡ left_as (desk_as self.new) self.old }
        ensures piece { piece.new ≡ bearing (sheet piece.new) piece.old }
        ensures paper { paper.new ≡ bearing (sheet paper.new) paper.old }
        ensures room { (length piece.new.letters.now ≡ length piece.old.letters.now) × (length paper.new.letters.now ≡ length paper.old.letters.now) }
    {
        let answers = self.books.answers();
        let said = hear(line, longer, answers);
        piece.filled = 0;
        put_spoken(piece, said, line, answers.kept);
        self.carry_out(speaks, text_of(piece), paper);
        said
    }
}
