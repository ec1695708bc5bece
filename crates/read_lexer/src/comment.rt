//! What is cut off a line before it is lexed: a comment, and an instruction's memory operands.

ghost use Rattle.std.specs.Prelude.{◌≡◌, None};
ghost use Rattle.read_lexer.specs.Bytes.{is_quote};
ghost use Rattle.read_lexer.specs.Comment.{before, before_comment, before_memory_operands, quote_behind, is_cut};

/// A line without its comment, which begins at the first `;` outside quotes. An unclosed quote extends to the end of
/// the line.
pub fn before_comment(line: &[u8]) -> &[u8]
    ensures { result.now ≡ before_comment line.now }
{
    if !line.contains(&b';') {
        return line;
    }
    before(line, b";")
}

/// An instruction's line without its memory operands, which begin at the first `::` outside quotes.
pub fn before_memory_operands(line: &[u8]) -> &[u8]
    ensures { result.now ≡ before_memory_operands line.now }
{
    if !line.contains(&b':') {
        return line;
    }
    before(line, b"::")
}

/// The line's bytes before the first `mark` outside quotes.
fn before<'a>(line: &'a [u8], mark: &[u8]) -> &'a [u8]
    ensures { result.now ≡ before mark.now None line.now }
{
    let mut open_quote = None;
    for (at, byte) in line.iter().enumerate() {
        if is_cut(mark, open_quote, &line[at..]) {
            return &line[..at];
        }
        open_quote = quote_behind(open_quote, *byte);
    }
    line
}

/// Whether the bytes begin with `mark`, outside quotes.
fn is_cut(mark: &[u8], open_quote: Option<u8>, rest: &[u8]) -> bool
    ensures { result ≡ is_cut mark.now open_quote rest.now }
{
    open_quote.is_none() && rest.starts_with(mark)
}

/// The open quote after a byte, if one is open.
fn quote_behind(open_quote: Option<u8>, byte: u8) -> Option<u8>
    ensures { result ≡ quote_behind open_quote byte }
{
    match open_quote {
        Some(quote) if byte == quote => None,
        Some(quote) => Some(quote),
        None if is_quote(byte) => Some(byte),
        None => None,
    }
}

/// Whether a byte opens a text in quotes.
fn is_quote(byte: u8) -> bool
    ensures { result ≡ is_quote byte }
{
    byte == b'"' || byte == b'\''
}
