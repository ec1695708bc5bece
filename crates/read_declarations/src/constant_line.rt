//! A line of an entry of `constants`: four bytes, a key, a colon, blanks and a value.

ghost use Rattle.std.specs.Prelude.{◌≡◌, drop, take};
ghost use Rattle.std.specs.List.{prefix_len};
ghost use Rattle.std.specs.Char.{is_ascii_alphabetic};
ghost use Rattle.read_declarations.specs.Constants.{
  is_blank_line,
  opens,
  continues,
  letters_with_colon,
  key_len,
  has_key,
  key_of,
  is_space,
  behind_spaces,
  is_quote,
  is_no_quote,
  is_closed,
  unquoted,
  value_of,
};

use read_lexer::bytes::is_blank;

pub(crate) fn is_blank_line(text: &[u8]) -> bool
    ensures { result ≡ is_blank_line text.now }
{
    text.iter().all(|b| is_blank(*b))
}

/// Whether a line begins an entry.
pub(crate) fn opens(text: &[u8]) -> bool
    ensures { result ≡ opens text.now }
{
    text.starts_with(b"  - ")
}

/// Whether a line may go on with one.
pub(crate) fn continues(text: &[u8]) -> bool
    ensures { result ≡ continues text.now }
{
    text.starts_with(b"    ")
}

/// The bytes from an index on.
pub(crate) fn from_index(text: &[u8], index: usize) -> &[u8]
    ensures { result.now ≡ drop index text.now }
{
    if text.len() < index {
        &[]
    } else {
        &text[index..]
    }
}

/// The bytes before an index.
fn before_index(text: &[u8], index: usize) -> &[u8]
    ensures { result.now ≡ take index text.now }
{
    if text.len() < index {
        text
    } else {
        &text[..index]
    }
}

fn letters(text: &[u8]) -> usize
    ensures { result ≡ prefix_len is_ascii_alphabetic text.now }
{
    text.iter().take_while(|b| b.is_ascii_alphabetic()).count()
}

/// So many letters, if there is one and a colon follows them.
fn letters_with_colon(count: usize, text: &[u8]) -> Option<usize>
    ensures { result ≡ letters_with_colon count text.now }
{
    if 0 < count && from_index(text, count).starts_with(b":") {
        Some(count)
    } else {
        None
    }
}

/// How many letters the key of a line has, if it has one.
fn key_len(text: &[u8]) -> Option<usize>
    ensures { result ≡ key_len text.now }
{
    let fields = from_index(text, 4);
    letters_with_colon(letters(fields), fields)
}

pub(crate) fn has_key(text: &[u8]) -> bool
    ensures { result ≡ has_key text.now }
{
    key_len(text).is_some()
}

/// The key of a line: empty if it has none.
pub(crate) fn key_of(text: &[u8]) -> &[u8]
    ensures { result.now ≡ key_of text.now }
{
    match key_len(text) {
        Some(count) => before_index(from_index(text, 4), count),
        None => &[],
    }
}

/// The number of spaces at the front.
fn spaces(text: &[u8]) -> usize
    ensures { result ≡ prefix_len is_space text.now }
{
    text.iter().take_while(|b| **b == b' ').count()
}

pub(crate) fn behind_spaces(text: &[u8]) -> &[u8]
    ensures { result.now ≡ behind_spaces text.now }
{
    from_index(text, spaces(text))
}

/// The number of single quotes at the front.
fn quotes(text: &[u8]) -> usize
    ensures { result ≡ prefix_len is_quote text.now }
{
    text.iter().take_while(|b| **b == b'\'').count()
}

/// The number of bytes before the first quote.
fn unquoted_len(text: &[u8]) -> usize
    ensures { result ≡ prefix_len is_no_quote text.now }
{
    text.iter().take_while(|b| **b != b'\'').count()
}

/// Whether nothing but quotes is behind the first quote.
fn is_closed(text: &[u8]) -> bool
    ensures { result ≡ is_closed text.now }
{
    from_index(text, unquoted_len(text))
        .iter()
        .all(|b| *b == b'\'')
}

/// The text without the quotes around it, if quotes are there alone.
fn unquoted(text: &[u8]) -> &[u8]
    ensures { result.now ≡ unquoted text.now }
{
    let rest = from_index(text, quotes(text));
    if is_closed(rest) {
        before_index(rest, unquoted_len(rest))
    } else {
        text
    }
}

/// The value of a line: empty if it has no key.
pub(crate) fn value_of(text: &[u8]) -> &[u8]
    ensures { result.now ≡ value_of text.now }
{
    match key_len(text) {
        Some(count) => {
            let colon = from_index(from_index(text, 4), count);
            unquoted(behind_spaces(from_index(colon, 1)))
        }
        None => &[],
    }
}
