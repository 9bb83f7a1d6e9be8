//! The words of a text.

ghost use Rattle.std.specs.Prelude.{◌≡◌};
ghost use Rattle.std.specs.Option.{option_map};
ghost use Rattle.dnp_orders.specs.Words as spec;

/// The word of a text at a place, counted from 0, if there is one.
pub(crate) fn nth_word(text: &str, place: usize) -> Option<&str>
    ensures { option_map (λ word. word.now) result ≡ spec.nth_word text.now place }
{
    text.split(' ').nth(place)
}

/// The word of a text at a place, counted from 0, or an empty one where there is none.
pub(crate) fn word_at(text: &str, place: usize) -> &str
    ensures { result.now ≡ spec.word_at text.now place }
{
    match nth_word(text, place) {
        Some(word) => word,
        None => "",
    }
}
