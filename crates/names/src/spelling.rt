// Whether a word is a name: small letters do as well as capital ones.
ghost use Rattle.std.specs.Prelude.{◌≡◌};
ghost use Rattle.names.specs.Names.{capital, same_name};

#[tactic(auto, unfolding(crate::specs::Names::capital, words::specs::Letters::between))]
fn capital_of(letter: u8) -> u8
    ensures { result ≡ capital letter }
{
    letter.to_ascii_uppercase()
}

// `eq_ignore_ascii_case` would let small letters stand in the name too.
pub fn is_name(word: &[u8], name: &[u8]) -> bool
    ensures { result ≡ same_name word.now name.now }
{
    word.len() == name.len()
        && word
            .iter()
            .zip(name)
            .all(|(&letter, &capital)| capital_of(letter) == capital)
}
