// Carries out, on handed-in tables and texts, what no command stream reaches: a line for each case, and the count.

#![tactic(auto)]

mod identifiers;
mod lengths;
mod tables;
mod texts;

use handed::report::Tally;

fn main() {
    let mut t = Tally::default();
    lengths::all(&mut t);
    texts::all(&mut t);
    identifiers::all(&mut t);
    tables::all(&mut t);
    t.total();
}
