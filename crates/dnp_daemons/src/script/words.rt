//! The lines of a text, and the words of a line.

ghost use Rattle.std.specs.Prelude.{◌≡◌, ◌<◌, ◌∷◌, IfNone, IfSome, length, map};
ghost use Rattle.dnp_daemons.specs.Words.{lines_of, words_of};

use arrayvec::ArrayVec;

/// The most words that a line of a script has.
pub(crate) const MAX_WORDS: usize = 8;

/// The first line of a text, and the text below it.
pub(crate) fn first_line(text: &str) -> (&str, &str)
    requires { 0 < length text.now }
    ensures lines { lines_of text.now ≡ result.0.now ∷ lines_of result.1.now }
    ensures shorter { length result.1.now < length text.now }
{
    match text.split_once('\n') {
        Some(parts) => parts,
        None => (text, ""),
    }
}

/// The words of a line, or none where it has more than [`MAX_WORDS`].
pub(crate) fn words_in(line: &str) -> Option<ArrayVec<&str, MAX_WORDS>>
    ensures found { IfSome result (λ words. map (λ word. word.now) words.items ≡ words_of line.now) }
    ensures none { IfNone result (MAX_WORDS < length (words_of line.now)) }
{
    let mut words = ArrayVec::new();
    let mut rest = line;
    while let Some((word, more)) = rest.split_once(' ') {
        if words.len() + 1 == MAX_WORDS {
            return None;
        }
        words.push(word);
        rest = more;
    }
    words.push(rest);
    Some(words)
}
