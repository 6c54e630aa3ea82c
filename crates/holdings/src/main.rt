// Carries out, on handed-in places and keys, what no command stream reaches: a line for each case, and the count.

#![tactic(auto)]

mod held_keys;
mod places;

use handed::report::Tally;

fn main() {
    let mut t = Tally::default();
    places::all(&mut t);
    held_keys::all(&mut t);
    t.total();
}
