//! The parts of a file, and the bytes that their lines encode.

use anyhow::{Context, bail};
use std::alloc::Global;
use std::str;

/// A part of a file.
#[derive(Clone, Copy)]
pub struct Part<'a> {
    /// The word behind the mark of its first line.
    pub word: &'a str,
    /// What stands on that line behind the word.
    pub rest: &'a str,
    /// All lines, the first one among them.
    text: &'a str,
}

impl<'a> Part<'a> {
    /// The part of these lines, whose mark is cut off.
    pub fn new(text: &'a str) -> Part<'a> {
        let (head, _) = text.split_once('\n').unwrap_or((text, ""));
        let (word, rest) = head.split_once(' ').unwrap_or((head, ""));
        Part { word, rest, text }
    }
}

/// Texts that have names.
#[derive(Drop)]
pub struct Texts {
    named: Vec<(String, Vec<u8>)>,
}

impl Texts {
    /// No text yet.
    pub fn new(alloc: Global) -> Texts {
        Texts {
            named: Vec::new(alloc),
        }
    }

    /// Gives the bytes of a part the name behind its word.
    pub fn name(&mut self, part: Part<'_>) -> anyhow::Result<()> {
        let bytes = self.bytes(part)?;
        let name = String::from_str(*self.named.allocator(), part.rest)?;
        self.named.push((name, bytes))?;
        Ok(())
    }

    /// What the lines of a part stand for.
    pub fn bytes(&self, part: Part<'_>) -> anyhow::Result<Vec<u8>> {
        let mut bytes = Vec::new(*self.named.allocator());
        for line in part.text.split('\n').skip(1) {
            self.add_line(line, &mut bytes)?;
        }
        Ok(bytes)
    }

    /// Adds what a line stands for.
    fn add_line(&self, line: &str, bytes: &mut Vec<u8>) -> anyhow::Result<()> {
        if line == "\\" {
            if bytes.last() == Some(&b'\n') {
                bytes.pop();
            }
            return Ok(());
        }
        let Some(asked) = line.strip_prefix('@') else {
            return add_copies(line.as_bytes(), b"\n", 1, bytes);
        };
        match asked.split_once(' ') {
            None => add_copies(self.text_of(asked)?, b"", 1, bytes),
            Some(("hex", digits)) => add_hex(digits, bytes),
            Some((count, line)) => self.add_repeated(line, count.parse::<u32>()?, bytes),
        }
    }

    /// Adds a line, or the text that it names, so many times, numbered.
    fn add_repeated(&self, line: &str, count: u32, bytes: &mut Vec<u8>) -> anyhow::Result<()> {
        match line.strip_prefix('@') {
            None => add_turns(line, b"\n", count, bytes),
            Some(name) => add_turns(str::from_utf8(self.text_of(name)?)?, b"", count, bytes),
        }
    }

    /// The text of a name.
    fn text_of(&self, name: &str) -> anyhow::Result<&[u8]> {
        for (other, text) in &self.named {
            if other.as_str() == name {
                return Ok(text.as_slice());
            }
        }
        bail!("no text is called {name}")
    }
}

/// Adds a text and its end so many times.
fn add_copies(text: &[u8], end: &[u8], count: u32, bytes: &mut Vec<u8>) -> anyhow::Result<()> {
    for _ in 0..count {
        bytes.extend_from_slice(text)?;
        bytes.extend_from_slice(end)?;
    }
    Ok(())
}

/// The same with the numbers of each turn. Turns are counted from 0.
fn add_turns(text: &str, end: &[u8], count: u32, bytes: &mut Vec<u8>) -> anyhow::Result<()> {
    if !text.contains("{n") {
        return add_copies(text.as_bytes(), end, count, bytes);
    }
    for turn in 0..count {
        add_turn(text, turn, bytes)?;
        bytes.extend_from_slice(end)?;
    }
    Ok(())
}

/// Adds a text in which `{n}`, or `{n*7%224+1}`, stands for a number of the turn.
fn add_turn(text: &str, turn: u32, bytes: &mut Vec<u8>) -> anyhow::Result<()> {
    let alloc = *bytes.allocator();
    let (first, _) = text.split_once("{n").unwrap_or((text, ""));
    bytes.extend_from_slice(first.as_bytes())?;
    for piece in text.split("{n").skip(1) {
        let (term, rest) = piece.split_once('}').context("a number without an end")?;
        let number = number_at(term, turn).context(format_args!("n{term}"))?;
        let digits = format!(in alloc; "{number}")?;
        bytes.extend_from_slice(digits.as_bytes())?;
        bytes.extend_from_slice(rest.as_bytes())?;
    }
    Ok(())
}

/// The turn's number times the factor behind `*`, the rest of this by the number behind `%`, and the one behind `+`
/// more.
fn number_at(term: &str, turn: u32) -> Option<u64> {
    let (term, summand) = term.split_once('+').unwrap_or((term, "0"));
    let (factor, modulus) = term.split_once('%').unwrap_or((term, ""));
    let factor = factor.strip_prefix('*').unwrap_or("1").parse::<u64>().ok()?;
    let product = u64::from(turn).checked_mul(factor)?;
    rest_of(product, modulus)?.checked_add(summand.parse::<u64>().ok()?)
}

/// The rest of a number by a modulus, if there is one.
fn rest_of(number: u64, modulus: &str) -> Option<u64> {
    if modulus.is_empty() {
        return Some(number);
    }
    number.checked_rem(modulus.parse::<u64>().ok()?)
}

/// Adds bytes of two hexadecimal digits each.
fn add_hex(digits: &str, bytes: &mut Vec<u8>) -> anyhow::Result<()> {
    for pair in digits.as_bytes().chunks(2) {
        let pair = str::from_utf8(pair)?;
        bytes.push(u8::from_str_radix(pair, 16).context("two digits")?)?;
    }
    Ok(())
}
