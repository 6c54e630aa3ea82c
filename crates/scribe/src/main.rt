// The scribe: lines of words on standard input, and the stream's bytes on standard output.

#![tactic(auto)]

use clerk::wrong::put_wrong;
use counter::input::{is_last, next_line};
use counter::kept::{Books, room};
use counter::service::{Sitting, text_of};
use io::write_all;
use printout::page::Page;
use state::places::fresh_facility;
use words::Wrong;

fn complain(number: usize, wrong: Wrong, paper: &mut Page) {
    paper.filled = 0;
    put_wrong(paper, number, wrong);
    write_all(2, text_of(paper));
}

// The lines one after the other, up to the first bad one: the bytes of each written, and carried out, so that `$n` means what it means at the desk.
fn write_lines(sitting: &mut Sitting, line: &mut [u8], piece: &mut Page, paper: &mut Page) {
    for number in 1..=usize::MAX {
        let coming = next_line(line);
        let got = coming.got();
        let said = sitting.serve_line(false, text_of(&coming.letters), got.longer, piece, paper);
        if let Err(wrong) = said {
            complain(number, wrong, paper);
            return;
        }
        write_all(1, text_of(piece));
        if is_last(got.complete, said) {
            return;
        }
    }
}

fn main() {
    let mut line = [0u8; 131072];
    let mut table = [0xFFu8; 768];
    let mut out = [0u8; 32768];
    let mut kept = room();
    let mut ends = [0usize; 4097];
    let mut piece = [0u8; 65538];
    let mut paper = [0u8; 70000];
    let mut sitting = Sitting {
        state: fresh_facility(),
        table: &mut table,
        out: &mut out,
        books: Books::new(&mut kept, &mut ends),
    };
    write_lines(
        &mut sitting,
        &mut line,
        &mut Page::new(&mut piece),
        &mut Page::new(&mut paper),
    );
}
