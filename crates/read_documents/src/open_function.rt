//! The document of a function that isn't closed yet.

ghost use Rattle.std.specs.Prelude.{◌≡◌, OnOk, IfOk};
ghost use Rattle.read_documents.specs.steps.Scan.{just_opened, has, can_not_take, with_line, taken, can_close};
ghost use Rattle.read_documents.specs.steps.Scan.{closed_at};

use crate::key::{Key, heading, is_plain, opens_block, opens_function};
use crate::parts::FunctionDocument;
use base_list::List;
use read_lexer::line::{Line, Lines};
use std::alloc::{AllocError, Global};

/// The document of a function that isn't closed yet: the lines so far of each key that is kept.
#[derive(Drop)]
pub struct OpenFunction {
    /// The number of the line that opens the function.
    pub opened: u32,
    /// Whether the function is read in the linked language.
    pub linked: bool,
    /// The key that the last line belongs to.
    pub key: Key,
    /// Whether the line `body:` came.
    pub has_body: bool,
    /// The lines of `name`.
    pub name: Lines,
    /// The lines of `stack`.
    pub stack: Lines,
    /// The lines of `fixedStack`.
    pub fixed: Lines,
    /// The lines of `debugValueSubstitutions`.
    pub substitutions: Lines,
    /// The lines of `constants`.
    pub constants: Lines,
    /// The lines of `exposesReturnsTwice`.
    pub twice: Lines,
    /// The lines after `body:`.
    pub body: Lines,
}

/// A line with a copy of its text.
pub fn line_of(alloc: Global, number: u32, text: &[u8]) -> Result<Line, AllocError>
    ensures { IfOk result (λ line. line ≡ record { number = number; text = text.now }) }
{
    Ok(Line {
        number,
        text: List::from_slice(alloc, text)?,
    })
}

impl OpenFunction {
    /// A function right after the line that opens it.
    pub fn new(alloc: Global, linked: bool, opened: u32) -> OpenFunction
        ensures { result ≡ just_opened linked opened }
    {
        OpenFunction {
            opened,
            linked,
            key: Key::Other,
            has_body: false,
            name: List::new(alloc),
            stack: List::new(alloc),
            fixed: List::new(alloc),
            substitutions: List::new(alloc),
            constants: List::new(alloc),
            twice: List::new(alloc),
            body: List::new(alloc),
        }
    }

    /// Whether a line with this key came already, for a key that may come once.
    fn has(&self, key: Key) -> bool
        ensures { result ≡ has self.now key }
    {
        match key {
            Key::Name => !self.name.is_empty(),
            Key::Stack => !self.stack.is_empty(),
            Key::FixedStack => !self.fixed.is_empty(),
            Key::DebugValueSubstitutions => !self.substitutions.is_empty(),
            Key::Constants => self.linked && !self.constants.is_empty(),
            Key::ReturnsTwice => self.linked && !self.twice.is_empty(),
            Key::Body => self.has_body,
            Key::Other => false,
        }
    }

    /// Whether a line is a fault in the function.
    pub fn can_not_take(&self, text: &[u8]) -> bool
        ensures { result ≡ can_not_take self.now text.now }
    {
        if opens_block(text) || opens_function(text) {
            return true;
        }
        match heading(text) {
            Some(key) => self.has(key),
            None => !is_plain(text) && !self.has_body,
        }
    }

    /// Appends the next line to those of its key, if that key is kept, and else ignores it.
    pub fn take(&mut self, alloc: Global, number: u32, text: &[u8]) -> Result<(), AllocError>
        ensures { OnOk result (self.new ≡ taken self.old (record { number = number; text = text.now })) }
    {
        match heading(text) {
            Some(Key::Body) => {
                self.key = Key::Body;
                self.has_body = true;
                Ok(())
            }
            Some(key) => {
                self.key = key;
                self.keep(alloc, number, text)
            }
            None => self.keep(alloc, number, text),
        }
    }

    /// Appends a line to those of the current key, if that key is kept.
    fn keep(&mut self, alloc: Global, number: u32, text: &[u8]) -> Result<(), AllocError>
        ensures { OnOk result (self.new ≡ with_line self.old self.old.key (record {
          number = number;
          text =
              text.now;
        })) }
    {
        match self.key {
            Key::Name => self.name.push(line_of(alloc, number, text)?),
            Key::Stack => self.stack.push(line_of(alloc, number, text)?),
            Key::FixedStack => self.fixed.push(line_of(alloc, number, text)?),
            Key::DebugValueSubstitutions => self.substitutions.push(line_of(alloc, number, text)?),
            Key::Constants => self.constants.push(line_of(alloc, number, text)?),
            Key::ReturnsTwice => self.twice.push(line_of(alloc, number, text)?),
            Key::Body => self.body.push(line_of(alloc, number, text)?),
            Key::Other => Ok(()),
        }
    }

    /// Whether the function has a name and a body.
    pub fn can_close(&self) -> bool
        ensures { result ≡ can_close self.now }
    {
        !self.name.is_empty() && self.has_body
    }

    /// The document of the function, once the line with number `closed` closes it.
    pub fn close(self, closed: u32) -> FunctionDocument
        ensures { result ≡ closed_at self closed }
    {
        FunctionDocument {
            opened: self.opened,
            closed,
            linked: self.linked,
            name: self.name,
            stack: self.stack,
            fixed: self.fixed,
            substitutions: self.substitutions,
            constants: self.constants,
            twice: self.twice,
            body: self.body,
        }
    }
}
