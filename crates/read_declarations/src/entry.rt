//! The entries of a list, `- { key: value, .. }`, read token by token.

ghost use Rattle.std.specs.Prelude.{◌≡◌, IfOk, OnOk};
ghost use Rattle.read_declarations.specs.Stream.{text_at};
ghost use Rattle.read_declarations.specs.FlowMapping.{is_punctuation, is_value, has_text, AreKeys, KeepsKeys, fits_at, line_at, nothing_read, behind, with_field, behind_value, ended, bad_line, entries_of};

use crate::stream::{YamlToken, text_at};
use base_list::List;
use read_lexer::line::Line;
use read_metadata::token::{is_byte, is_integer, is_text, is_word};
use read_refusal::first::Refusal;
use read_refusal::kind::RefusalKind;
use std::alloc::{AllocError, Global};
use std::collections::BTreeSet;

/// A field of an entry: the key, a word, and the value, one token.
#[derive(Clone, Copy, Debug)]
pub struct MappingField {
    pub key: YamlToken,
    pub value: YamlToken,
}

/// Fields of an entry, in order.
pub type Fields = List<MappingField>;

/// An entry of a list.
#[derive(Debug, Drop)]
pub struct MappingEntry {
    /// The number of its first line.
    pub line: u32,
    pub fields: Fields,
}

/// Entries of a list, in order.
pub type Entries = List<MappingEntry>;

/// Which part of an entry comes next.
#[derive(Clone, Copy, Debug)]
pub enum ParserState {
    /// Outside entries.
    Outside,
    /// After an entry's `-`.
    Dash,
    /// At a key.
    Key,
    /// After a key.
    Colon(YamlToken),
    /// After a key and its colon.
    Value(YamlToken),
    /// After a value.
    Next,
}

/// The state of the parser: the entries so far, and the open one.
#[derive(Debug, Drop)]
pub struct OpenList {
    pub entries: Entries,
    pub place: ParserState,
    /// The number of the first line of the open entry.
    pub line: u32,
    /// The fields of the open entry.
    pub fields: Fields,
}

/// The entries of a list up to the first token that can't come next, and the refusal of that token's entry.
#[derive(Debug, Drop)]
pub struct Listing {
    pub entries: Entries,
    pub refused: Option<Refusal>,
}

/// Whether a token is this byte alone.
pub fn is_punctuation(byte: u8, piece: YamlToken) -> bool
    ensures { result ≡ is_punctuation byte piece }
{
    is_byte(byte, piece.token)
}

/// Whether a token may be a field's value.
fn is_value(piece: YamlToken) -> bool
    ensures { result ≡ is_value piece }
{
    is_word(piece.token) || is_integer(piece.token) || is_text(piece.token)
}

/// Whether a set contains the text of a key.
fn has_key(lines: &[Line], keys: &BTreeSet<&[u8]>, key: YamlToken) -> bool
    ensures { result ≡ has_text keys.now (text_at lines.now key) }
{
    keys.contains(text_at(lines, key))
}

/// The refusal of a line that has no accepted form.
pub fn bad_line(line: u32) -> Refusal
    ensures { result ≡ bad_line line }
{
    Refusal {
        line,
        kind: RefusalKind::BadLine,
    }
}

impl OpenList {
    /// The state before the first token.
    fn new(alloc: Global) -> OpenList
        ensures { result ≡ nothing_read }
    {
        OpenList {
            entries: List::new(alloc),
            place: ParserState::Outside,
            line: 0,
            fields: List::new(alloc),
        }
    }

    /// Whether a token may come next. The set has the keys of the open entry.
    fn fits(&self, lines: &[Line], keys: &BTreeSet<&[u8]>, piece: YamlToken) -> bool
        requires { AreKeys lines.now keys.now self.now.fields }
        ensures { result ≡ fits_at lines.now self.now.fields self.now.place piece }
    {
        match self.place {
            ParserState::Outside => is_punctuation(b'-', piece),
            ParserState::Dash => is_punctuation(b'{', piece),
            ParserState::Key => is_word(piece.token),
            ParserState::Colon(_) => is_punctuation(b':', piece),
            ParserState::Value(key) => is_value(piece) && !has_key(lines, keys, key),
            ParserState::Next => is_punctuation(b',', piece) || is_punctuation(b'}', piece),
        }
    }

    /// The first line of the entry that a token belongs to.
    fn line_at(&self, piece: YamlToken) -> u32
        ensures { result ≡ line_at self.now.line self.now.place piece }
    {
        match self.place {
            ParserState::Outside => piece.line,
            _ => self.line,
        }
    }

    /// Takes a token that may come next. The set has the keys of the open entry.
    fn take<'a>(
        &mut self,
        alloc: Global,
        lines: &'a [Line],
        keys: &mut BTreeSet<&'a [u8]>,
        piece: YamlToken,
    ) -> Result<(), AllocError>
        requires { AreKeys lines.now keys.old self.old.fields }
        ensures list { OnOk result (self.new ≡ behind self.old self.old.place piece) }
        ensures keys { OnOk result (AreKeys lines.now keys.new self.new.fields) }
    {
        match self.place {
            ParserState::Outside => {
                self.line = piece.line;
                self.place = ParserState::Dash;
                Ok(())
            }
            ParserState::Dash => {
                self.place = ParserState::Key;
                Ok(())
            }
            ParserState::Key => {
                self.place = ParserState::Colon(piece);
                Ok(())
            }
            ParserState::Colon(key) => {
                self.place = ParserState::Value(key);
                Ok(())
            }
            ParserState::Value(key) => {
                self.place = ParserState::Next;
                keys.insert(text_at(lines, key))?;
                self.fields.push(MappingField { key, value: piece })
            }
            ParserState::Next => self.take_behind_value(alloc, keys, piece),
        }
    }

    /// Takes the token after a value.
    fn take_behind_value(
        &mut self,
        alloc: Global,
        keys: &mut BTreeSet<&[u8]>,
        piece: YamlToken,
    ) -> Result<(), AllocError>
        ensures list { OnOk result (self.new ≡ behind_value self.old piece) }
        ensures keys { OnOk result (KeepsKeys keys.old self.old.fields keys.new self.new.fields) }
    {
        if is_punctuation(b',', piece) {
            self.place = ParserState::Key;
            return Ok(());
        }
        let fields = std::mem::replace(&mut self.fields, List::new(alloc));
        keys.clear();
        self.place = ParserState::Outside;
        self.entries.push(MappingEntry {
            line: self.line,
            fields,
        })
    }

    /// The result at the end of the tokens. An open entry is refused, unless the tokens were cut off by a fault.
    fn ended(self, is_cut: bool) -> Listing
        ensures { result ≡ ended is_cut self }
    {
        let refused = match self.place {
            ParserState::Outside => None,
            _ if is_cut => None,
            _ => Some(bad_line(self.line)),
        };
        Listing {
            entries: self.entries,
            refused,
        }
    }
}

/// The list of entries in these tokens.
pub fn entries(
    alloc: Global,
    lines: &[Line],
    pieces: &[YamlToken],
    is_cut: bool,
) -> Result<Listing, AllocError>
    ensures { IfOk result (λ read. read ≡ entries_of lines.now is_cut pieces.now) }
{
    let mut keys = BTreeSet::new(alloc);
    let mut so_far = OpenList::new(alloc);
    for piece in pieces {
        if !so_far.fits(lines, &keys, *piece) {
            return Ok(Listing {
                refused: Some(bad_line(so_far.line_at(*piece))),
                entries: so_far.entries,
            });
        }
        so_far.take(alloc, lines, &mut keys, *piece)?;
    }
    Ok(so_far.ended(is_cut))
}
