//! What is refused before the parse: another command, and stray hyphens.
ghost use Rattle.std.specs.Prelude.{◌≡◌};
ghost use Rattle.std.specs.List.{list_any};
ghost use Rattle.ppq_words.specs.Uses.{begins_with_hyphen, after_equals};
ghost use Rattle.ppq_words.specs.Strays.{has_stray_value, is_stray, may_parse};
ghost use Rattle.ppq_words.specs.Reading.{texts_of};

// Whether a text begins with `-`.
fn begins_with_hyphen(text: &str) -> bool
    ensures { result ≡ begins_with_hyphen text.now }
{
    !text.is_empty() && text.starts_with('-')
}

// Whether the word has a value, after `=`, that begins with `-`.
fn has_stray_value(word: &str) -> bool
    ensures { result ≡ has_stray_value (after_equals word.now) }
{
    match word.split_once('=') {
        Some((_, value)) => begins_with_hyphen(value),
        None => false,
    }
}

// Whether the word begins with `-` and cannot be an option: it is not `--` with something after it,
// or its value begins with `-`. `clap` takes `--` for the end of the options, and a value in the
// same word whatever it begins with.
fn is_stray(word: &str) -> bool
    ensures { result ≡ is_stray word.now }
{
    match word.as_bytes() {
        [b'-', b'-', _, ..] => has_stray_value(word),
        [b'-', ..] => true,
        _ => false,
    }
}

// Whether some word is stray.
fn has_stray(words: &[String]) -> bool
    ensures { result ≡ list_any is_stray (texts_of words.now) }
{
    words.iter().any(|word| is_stray(word.as_str()))
}

// Whether the words go on to the parse: the first is the command's word, and no other is stray. Does
// not allocate.
pub(crate) fn may_parse(word: &str, words: &[String]) -> bool
    ensures { result ≡ may_parse word.now (texts_of words.now) }
{
    match words.split_first() {
        Some((first, rest)) => first.as_str() == word && !has_stray(rest),
        None => false,
    }
}
