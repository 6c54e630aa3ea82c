// Runs the published answers: a line for each group, a line for each wrong answer, and the total.

#![tactic(auto)]

mod answers;
mod blocks;
mod fips113;
mod fips_81;
mod fixity;
mod modes;
mod report;
mod sp500_20;

fn main() {
    let blocks = blocks::all();
    let texts = modes::all();
    let value = fixity::run(b"fixity");
    report::line(b"total", blocks.plus(texts).plus(value));
}
