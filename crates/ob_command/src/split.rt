//! Splitting body texts at their spaces.
ghost use Rattle.std.specs.Prelude.{◌≡◌, ◌<◌, ◌==◌, length, option_map, position, Some, IfSome};
ghost use Rattle.ob_command.specs.Splits.{both_texts, cut_in, seven_texts, word_in, words_in};

use crate::fields::Fields;

/// Splits a body text into its kind and its fields at single spaces; the fields that it doesn't
/// have are empty. `None` if the kind or a field is empty, or an eighth part follows.
pub(crate) fn split(text: &[u8]) -> Option<(&[u8], Fields<'_>)>
    ensures { option_map (λ p. seven_texts (p.0.now, p.1)) result ≡ words_in 7 (Some text.now) }
{
    let (kind, rest) = word(Some(text))?;
    let (f1, rest) = word(rest)?;
    let (f2, rest) = word(rest)?;
    let (f3, rest) = word(rest)?;
    let (f4, rest) = word(rest)?;
    let (f5, rest) = word(rest)?;
    let (f6, rest) = word(rest)?;
    if rest.is_some() {
        return None;
    }
    let fields = Fields {
        f1,
        f2,
        f3,
        f4,
        f5,
        f6,
    };
    Some((kind, fields))
}

// The next part up to a space, and what follows that space.
fn word(text: Option<&[u8]>) -> Option<(&[u8], Option<&[u8]>)>
    ensures { option_map (λ p. (p.0.now, option_map (λ r. r.now) p.1)) result
        ≡ word_in (option_map (λ t. t.now) text.entry) }
{
    let Some(text) = text else {
        return Some((b"", None));
    };
    let (word, rest) = match cut(text) {
        Some((word, rest)) => (word, Some(rest)),
        None => (text, None),
    };
    if word.is_empty() {
        return None;
    }
    Some((word, rest))
}

// What comes before the first space, and what comes after it.
fn cut(text: &[u8]) -> Option<(&[u8], &[u8])>
    ensures { both_texts result ≡ cut_in text.now }
{
    let at = first_space(text)?;
    Some((&text[..at], &text[at + 1..]))
}

fn first_space(text: &[u8]) -> Option<usize>
    ensures place { result ≡ position (λ b. b == 32) text.now }
    ensures within { IfSome result (λ at. at < length text.now) }
{
    text.iter().position(|byte| *byte == b' ')
}
