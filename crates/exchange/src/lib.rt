// Data keys and initialization vectors, made by one user and loaded by another.

// What the check opens of the page's table to see that a command does what its row says.
#![tactic(auto, using(rules::proofs::Laws::by_effect), unfolding(rules::specs::Commands::tests, rules::specs::Commands::refusals, rules::specs::Commands::effect, rules::specs::Step::effected, rules::specs::Refusals::test, state::specs::State::seat_of))]

pub mod data_keys;
pub mod vectors;
