// NOTARY: a stream on standard input, and a line for each command. What is printed is `print_notary`'s; here it is only read and written.

#![tactic(auto)]

use io::{large_buffer, read_full, write_all};
use programs::notary::print_notary;
use programs::paper::written;

fn main() {
    let mut input = large_buffer();
    let n = read_full(0, &mut input);
    let mut paper = [0u8; 327680];
    let filled = print_notary(&input[..n], &mut paper);
    write_all(1, written(&paper, filled));
}
