//! The marker lines between documents, and the keys of a function's document.

ghost use Rattle.std.specs.Prelude.{◌≡◌};
ghost use Rattle.std.specs.List.{prefix_len};
ghost use Rattle.read_documents.specs.Key.{is_close, opens_block, opens_function, is_passed, is_plain, is_key_byte};
ghost use Rattle.read_documents.specs.Key.{key_of};
ghost use Rattle.read_documents.specs.Key.{heading};

/// A key at the start of a line of a function's document.
#[derive(Clone, Copy, Debug, PartialEq, Eq)]
pub enum Key {
    /// `name`
    Name,
    /// `stack`
    Stack,
    /// `fixedStack`
    FixedStack,
    /// `debugValueSubstitutions`
    DebugValueSubstitutions,
    /// `constants`
    Constants,
    /// `exposesReturnsTwice`
    ReturnsTwice,
    /// `body`
    Body,
    /// Any other key: its lines are ignored.
    Other,
}

/// Whether a line is `...`, which closes a document.
#[tactic(auto, unfolding(crate::specs::Key::is_close))]
pub fn is_close(text: &[u8]) -> bool
    ensures { result ≡ is_close text.now }
{
    text == b"...".as_slice()
}

/// Whether a line is `--- |`, which opens the IR block.
#[tactic(auto, unfolding(crate::specs::Key::opens_block))]
pub fn opens_block(text: &[u8]) -> bool
    ensures { result ≡ opens_block text.now }
{
    text == b"--- |".as_slice()
}

/// Whether a line is `---`, which opens a function.
#[tactic(auto, unfolding(crate::specs::Key::opens_function))]
pub fn opens_function(text: &[u8]) -> bool
    ensures { result ≡ opens_function text.now }
{
    text == b"---".as_slice()
}

/// Whether a line between documents is ignored: it is empty, or begins with `#` or `;`.
pub fn is_passed(text: &[u8]) -> bool
    ensures { result ≡ is_passed text.now }
{
    matches!(text, [] | [b'#' | b';', ..])
}

/// Whether a function's line before `body` may lack a key: it is empty, or begins with a space, `-` or `#`.
pub fn is_plain(text: &[u8]) -> bool
    ensures { result ≡ is_plain text.now }
{
    matches!(text, [] | [b' ' | b'-' | b'#', ..])
}

/// Whether a byte may be part of a key: a letter, a digit or `_`.
fn is_key_byte(byte: u8) -> bool
    ensures { result ≡ is_key_byte byte }
{
    byte.is_ascii_alphanumeric() || byte == b'_'
}

/// The number of key bytes at the front.
fn key_len(text: &[u8]) -> usize
    ensures { result ≡ prefix_len is_key_byte text.now }
{
    text.iter().take_while(|b| is_key_byte(**b)).count()
}

/// The key that a name spells.
fn key_of(name: &[u8]) -> Key
    ensures { result ≡ key_of name.now }
{
    if name == b"name".as_slice() {
        Key::Name
    } else if name == b"stack".as_slice() {
        Key::Stack
    } else if name == b"fixedStack".as_slice() {
        Key::FixedStack
    } else if name == b"debugValueSubstitutions".as_slice() {
        Key::DebugValueSubstitutions
    } else if name == b"constants".as_slice() {
        Key::Constants
    } else if name == b"exposesReturnsTwice".as_slice() {
        Key::ReturnsTwice
    } else if name == b"body".as_slice() {
        Key::Body
    } else {
        Key::Other
    }
}

/// The key at the start of a line: one or more key bytes and then `:`.
#[tactic(auto, unfolding(crate::specs::Key::heading))]
pub fn heading(text: &[u8]) -> Option<Key>
    ensures { result ≡ heading text.now }
{
    let len = key_len(text);
    if len > 0 && text.get(len) == Some(&b':') {
        Some(key_of(&text[..len]))
    } else {
        None
    }
}
