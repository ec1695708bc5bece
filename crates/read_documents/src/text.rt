//! The lines of a text.

ghost use Rattle.std.specs.Prelude.{◌≡◌, ◌∷◌, ◌==◌, ◌<◌, length, position, IfSome};
ghost use Rattle.std.specs.Str.Lines.{lines, strip_carriage_return};
ghost use Rattle.read_documents.specs.Lines.{trimmed};

/// The first line of a text without its ending, and the text after it. A line ends at LF, and one CR right before the
/// LF belongs to the ending. Bytes after the last LF are a line too.
pub fn first_line(text: &[u8]) -> (&[u8], &[u8])
    requires { 0 < length text.now }
    ensures cut { lines text.now ≡ result.0.now ∷ lines result.1.now }
    ensures shorter { length result.1.now < length text.now }
{
    match line_feed(text) {
        Some(end) => (without_carriage_return(&text[..end]), &text[end + 1..]),
        None => (text, &text[text.len()..]),
    }
}

/// The index of the first LF.
pub fn line_feed(text: &[u8]) -> Option<usize>
    ensures place { result ≡ position (λ b. b == 10) text.now }
    ensures within { IfSome result (λ i. i < length text.now) }
{
    text.iter().position(|b| *b == b'\n')
}

/// A line without one CR at its end.
pub fn without_carriage_return(line: &[u8]) -> &[u8]
    ensures { result.now ≡ strip_carriage_return line.now }
{
    if line.last() == Some(&b'\r') {
        &line[..line.len() - 1]
    } else {
        line
    }
}

/// A line without the spaces at its end.
pub fn trimmed(line: &[u8]) -> &[u8]
    ensures { result.now ≡ trimmed line.now }
{
    let mut len = line.len();
    while len > 0 && line[len - 1] == b' ' {
        len -= 1;
    }
    &line[..len]
}
