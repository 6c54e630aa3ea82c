// The lines that the program writes, by `io`: `println!` is no plainer here, with a handle through every function and a result that none can use.
// (`handed::report` writes by the like: a crate more for four short functions would be no plainer.)
use crate::answers::{Place, Tally};
use io::{print_decimal, print_hex, write_all};

fn text(s: &[u8]) {
    write_all(1, s);
}

fn number(n: u64) {
    print_decimal(1, n);
}

fn bytes(s: &[u8]) {
    for b in s {
        print_hex(1, u64::from(*b), 2);
    }
}

// An answer that is not the published one.
pub fn wrong(place: Place, answer: &[u8], published: &[u8]) {
    text(b"wrong: ");
    text(place.group);
    text(b" row ");
    number(place.row as u64);
    text(b" gives ");
    bytes(answer);
    text(b" and not ");
    bytes(published);
    text(b"\n");
}

// A group, or the total.
pub fn line(name: &[u8], tally: Tally) {
    text(name);
    text(b" ");
    number(tally.enciphered);
    text(b" enciphered, ");
    number(tally.deciphered);
    text(b" deciphered, ");
    number(tally.wrong);
    text(b" wrong\n");
}
