//! The scan that cuts a text into documents, line by line.

ghost use Rattle.std.specs.Prelude.{◌≡◌, OnOk};
ghost use Rattle.read_documents.specs.steps.Scan.{start, outside_fault, function_fault, fault, block_step};
ghost use Rattle.read_documents.specs.steps.Scan.{outside_step, step};
ghost use Rattle.read_documents.specs.steps.Scan.{fault_at_end, found};

use crate::key::{is_close, is_passed, opens_block, opens_function};
use crate::open_function::{OpenFunction, line_of};
use crate::parts::{Documents, FunctionDocuments};
use base_list::List;
use read_lexer::line::Lines;
use std::alloc::{AllocError, Global};

/// The documents read so far, and which document is open.
#[derive(Drop)]
pub struct Scan {
    /// Whether functions are read in the linked language.
    pub linked: bool,
    /// Whether an IR block came already.
    pub had_block: bool,
    /// Whether the IR block is open.
    pub in_block: bool,
    /// The function that is open, if one is.
    pub function: Option<OpenFunction>,
    /// The lines of the IR block so far.
    pub meta: Lines,
    /// The functions that were closed.
    pub functions: FunctionDocuments,
}

/// The line number of a fault in a function, if the next line reveals one.
fn function_fault(function: &OpenFunction, number: u32, text: &[u8]) -> Option<u32>
    ensures { result ≡ function_fault function.now (record { number = number; text = text.now }) }
{
    if is_close(text) {
        if function.can_close() {
            None
        } else {
            Some(function.opened)
        }
    } else if function.can_not_take(text) {
        Some(number)
    } else {
        None
    }
}

impl Scan {
    /// The state before the first line.
    pub fn new(alloc: Global, linked: bool) -> Scan
        ensures { result ≡ start linked }
    {
        Scan {
            linked,
            had_block: false,
            in_block: false,
            function: None,
            meta: List::new(alloc),
            functions: List::new(alloc),
        }
    }

    /// The line number of a fault, if the next line reveals one.
    pub fn fault(&self, number: u32, text: &[u8]) -> Option<u32>
        ensures { result ≡ fault self.now (record { number = number; text = text.now }) }
    {
        match &self.function {
            Some(function) => function_fault(function, number, text),
            None if self.in_block => None,
            None => self.outside_fault(number, text),
        }
    }

    /// The line number of a fault outside documents, if the next line is one.
    fn outside_fault(&self, number: u32, text: &[u8]) -> Option<u32>
        ensures { result ≡ outside_fault self.now (record { number = number; text = text.now }) }
    {
        if is_passed(text) {
            None
        } else if opens_block(text) {
            self.had_block.then_some(number)
        } else if opens_function(text) {
            None
        } else {
            Some(number)
        }
    }

    /// Takes the next line, which isn't a fault.
    pub fn take(&mut self, alloc: Global, number: u32, text: &[u8]) -> Result<(), AllocError>
        ensures { OnOk result (self.new ≡ step self.old (record { number = number; text = text.now })) }
    {
        match self.function.take() {
            Some(mut function) => {
                if is_close(text) {
                    self.functions.push(function.close(number))?;
                } else {
                    function.take(alloc, number, text)?;
                    self.function = Some(function);
                }
                Ok(())
            }
            None if self.in_block => self.take_in_block(alloc, number, text),
            None => {
                self.take_outside(alloc, number, text);
                Ok(())
            }
        }
    }

    /// Takes a line of the IR block.
    fn take_in_block(&mut self, alloc: Global, number: u32, text: &[u8]) -> Result<(), AllocError>
        ensures { OnOk result (self.new ≡ block_step self.old (record { number = number; text = text.now })) }
    {
        if is_close(text) {
            self.in_block = false;
            return Ok(());
        }
        self.meta.push(line_of(alloc, number, text)?)
    }

    /// Takes a line outside documents.
    fn take_outside(&mut self, alloc: Global, number: u32, text: &[u8])
        ensures { self.new ≡ outside_step self.old (record { number = number; text = text.now }) }
    {
        if is_passed(text) {
            return;
        }
        if opens_block(text) {
            self.had_block = true;
            self.in_block = true;
        } else if opens_function(text) {
            self.function = Some(OpenFunction::new(alloc, self.linked, number));
        }
    }

    /// The line number of a fault at the end of the text, whose last line has number `last`, if there is one.
    pub fn fault_at_end(&self, last: u32) -> Option<u32>
        ensures { result ≡ fault_at_end self.now self.now.function last }
    {
        match &self.function {
            Some(function) if function.can_close() => Some(last),
            Some(function) => Some(function.opened),
            None if self.in_block => Some(last),
            None => None,
        }
    }

    /// The documents read so far, with the line number of the fault, if any.
    pub fn found(self, bad: Option<u32>) -> Documents
        ensures { result ≡ found self bad }
    {
        let Scan {
            linked: _,
            had_block: _,
            in_block: _,
            function: _,
            meta,
            functions,
        } = self;
        Documents {
            meta,
            functions,
            bad,
        }
    }
}
