// The desk: lines of words on standard input, each carried out at once and answered in words.

#![tactic(auto)]

use clerk::told::put_told;
use counter::input::{is_last, next_line};
use counter::kept::{Books, room};
use counter::service::{Sitting, text_of};
use io::write_all;
use printout::page::Page;
use reader::Line;
use state::Facility;
use state::places::fresh_facility;
use std::io::IsTerminal;
use words::Wrong;

// On a terminal the desk greets and asks for each line; in a pipe it only answers.
fn at_terminal(rt: &HostRuntime) -> bool {
    rt.stdin().is_terminal() && rt.stdout().is_terminal()
}

fn greet(asks: bool) {
    if asks {
        write_all(
            1,
            b"The desk of the key notarization facility. help lists the commands, quit leaves.\n",
        );
    }
}

fn ask(asks: bool) {
    if asks {
        write_all(1, b"> ");
    }
}

// Where the input ended, the last line on the screen is a `> `: it is ended.
fn part(asks: bool, complete: bool) {
    if asks && !complete {
        write_all(1, b"\n");
    }
}

// What the desk itself says of a line: nothing where there was something to carry out (`clerk/specs/Told.one_of_them`).
fn tell(number: usize, said: Result<Line, Wrong>, state: Facility, paper: &mut Page) {
    paper.filled = 0;
    put_told(paper, number, said, state);
    write_all(1, text_of(paper));
}

// The lines one after the other, each answered before the next is read.
fn serve(asks: bool, sitting: &mut Sitting, line: &mut [u8], piece: &mut Page, paper: &mut Page) {
    for number in 1..=1000000 {
        ask(asks);
        let coming = next_line(line);
        let got = coming.got();
        let said = sitting.serve_line(true, text_of(&coming.letters), got.longer, piece, paper);
        tell(number, said, sitting.desk().state, paper);
        if is_last(got.complete, said) {
            part(asks, got.complete);
            return;
        }
    }
    write_all(1, b"the desk has read 1000000 lines, and stops\n");
}

fn main(rt: HostRuntime) {
    let mut line = [0u8; 131072];
    let mut table = [0xFFu8; 768];
    let mut out = [0u8; 32768];
    let mut kept = room();
    let mut ends = [0usize; 4097];
    let mut piece = [0u8; 65538];
    let mut paper = [0u8; 70000];
    let asks = at_terminal(&rt);
    greet(asks);
    let mut sitting = Sitting {
        state: fresh_facility(),
        table: &mut table,
        out: &mut out,
        books: Books::new(&mut kept, &mut ends),
    };
    serve(
        asks,
        &mut sitting,
        &mut line,
        &mut Page::new(&mut piece),
        &mut Page::new(&mut paper),
    );
}
