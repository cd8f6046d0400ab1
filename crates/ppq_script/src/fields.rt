//! The text of a line, and its fields.
ghost use Rattle.std.specs.Prelude.{◌≡◌, ◌∷◌, [], MatchOption, position, not, ◌==◌};
ghost use Rattle.ppq_script.specs.Lines.{text_of, fields_of, BeginsField};

// The line without one carriage return at its end, if it has one there.
pub(crate) fn text(line: &[u8]) -> &[u8]
    ensures { result.now ≡ text_of line.now }
{
    match line.split_last() {
        None => line,
        Some(cut) => { if *cut.0 == b'\r' { cut.1 } else { line } }
    }
}

// The place of the first of these bytes.
pub(crate) fn place_of(byte: u8, text: &[u8]) -> Option<usize>
    ensures { result ≡ position (λ b. b == byte) text.now }
{
    text.iter().position(|b| *b == byte)
}

// The place of the first byte that is no space.
fn place_of_field(text: &[u8]) -> Option<usize>
    ensures { result ≡ position (λ b. not (b == 32)) text.now }
{
    text.iter().position(|b| *b != b' ')
}

// The field with which a text begins, and what stands behind it.
fn cut_field(text: &[u8]) -> (&[u8], &[u8])
    requires { BeginsField text.now }
    ensures { fields_of text.now ≡ result.0.now ∷ fields_of result.1.now }
{
    match place_of(b' ', text) {
        None => (text, &text[text.len()..]),
        Some(end) => (&text[..end], &text[end..]),
    }
}

// The first field of a text and what stands behind it, if there is a field.
pub(crate) fn next_field(text: &[u8]) -> Option<(&[u8], &[u8])>
    ensures { MatchOption result (fields_of text.now ≡ []) (λ cut. fields_of text.now ≡ cut.0.now ∷ fields_of cut.1.now) }
{
    match place_of_field(text) {
        None => None,
        Some(start) => Some(cut_field(&text[start..])),
    }
}
