ghost use Rattle.std.specs.Prelude.{◌≡◌, [], ◌∷◌, ◌<◌, length, MatchOption, IfSome};
ghost use Rattle.command_line.specs.Options.{texts};

/// The first of some words, and those behind it.
pub fn first_word(words: &[String]) -> Option<(&str, &[String])>
    ensures parts { MatchOption result (texts words.now ≡ [])
        (λ p. texts words.now ≡ p.0.now ∷ texts p.1.now) }
    ensures fewer { IfSome result (λ p. length p.1.now < length words.now) }
{
    let (first, rest) = words.split_first()?;
    Some((first.as_str(), rest))
}
