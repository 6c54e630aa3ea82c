// NOTARY: a stream carried out on a fresh facility, and a line for each command.
ghost use Rattle.std.specs.Prelude.{◌≡◌};
ghost use Rattle.printout.specs.Page.{page};
ghost use Rattle.programs.specs.Notary.{notary, printed};

use printout::page::{Page, first_of};
use session::run::run;
use state::places::fresh_facility;

// What NOTARY prints, from the start of a paper that has room for it, whatever is read; and how far the paper is filled: a number, as
// `proofs/Laws.determined_print_notary` has it.
pub fn print_notary(input: &[u8], paper: &mut [u8; 327680]) -> usize
    ensures { page paper.new result ≡ printed (notary input.now) paper.old }
{
    let stream = first_of(input, 65536);
    let mut output = [0u8; 32768];
    let mut table = [0xFFu8; 768];
    let mut page = Page::new(&mut paper[..]);
    run(fresh_facility(), &mut table, &mut output, stream, &mut page);
    page.filled
}
