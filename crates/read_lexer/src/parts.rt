//! Tokens: their classes, and their spans in the line.

use base_list::List;

/// The class of a token: its first byte determines it, in four cases with the bytes after that.
#[derive(Clone, Copy, Debug, PartialEq, Eq)]
pub enum Class {
    /// A letter or `_`, and then letters, digits, `_`, `.` and `-`, as `ADDI`, `bb.0.entry` or `debug-location`.
    Word,
    /// `$` and at least one letter, digit, `_`, `.` or `-`, as `$x10`.
    Register,
    /// `%` and at least one letter, digit, `_`, `.` or `-`, as `%stack.0` or `%bb.1.entry`.
    Percent,
    /// `!` and digits, as `!5`: a metadata node.
    Node,
    /// `!` and a word, as `!DILocation`: the kind of a metadata node.
    Kind,
    /// `@` or `&`, and then letters, digits, `_`, `.`, `-` and `$`, or a text in double quotes, as `@main`.
    Symbol,
    /// Digits, after a `-` or not, or `0x` and hexadecimal digits.
    Integer,
    /// Digits, after a `-` or not, a point and digits, and then `e` and digits or nothing, as `-2.5e+01`: a
    /// floating-point literal. The digits behind `e` may have a sign.
    Float,
    /// The bytes between two double quotes or two single quotes, quotes included.
    Text,
    /// One of the bytes `= , ( ) : { } [ ] < > | + -`, where no digit follows a `-`.
    Single(u8),
}

/// A token of a line. Its text is the line's slice from `start` to `end`.
#[derive(Clone, Copy, Debug, PartialEq, Eq)]
pub struct Token {
    /// What it is.
    pub class: Class,
    /// The index in the line of its first byte.
    pub start: usize,
    /// The index in the line after its last byte.
    pub end: usize,
}

/// The tokens of a line, from left to right.
pub type Tokens = List<Token>;
