//! The values of tokens.

use base_ids::function_ids::{BlockId, SlotId};
use base_ids::metadata::NodeId;
use read_lexer::fault::LexError;
use read_lexer::lexer::tokens;
use read_token::lexeme::Lexeme::{
    Block, Close, Colon, Comma, Constant, Equals, Expression, Fixed, Float, InlineLocation,
    Integer, Minus, Node, Open, Other, Plus, Register, Slot,
};
use read_token::lexeme::Number::{Fits, Large, Wide};
use read_token::lexeme::{BEYOND, Lexeme, RegisterName};
use read_token::sentence::lexemes;
use std::alloc::Global;
use std::test::Fail;

/// What a text of one token stands for.
fn only_lexeme(alloc: Global, text: &str) -> Result<Lexeme, Fail> {
    let found = match tokens(alloc, true, text.as_bytes()) {
        Ok(found) => found,
        Err(LexError::BadByte(_) | LexError::UnclosedString(_) | LexError::Memory) => {
            return Err(Fail::from("no tokens"));
        }
    };
    let read = lexemes(alloc, text.as_bytes(), found.as_slice())?;
    match read.as_slice() {
        [lexeme] => Ok(*lexeme),
        _ => Err(Fail::from("not one token")),
    }
}

/// The first text that stands for something else.
fn other_lexeme(
    alloc: Global,
    rows: &[(&'static str, Lexeme)],
) -> Result<Option<&'static str>, Fail> {
    for (text, wanted) in rows {
        if only_lexeme(alloc, text)? != *wanted {
            return Ok(Some(*text));
        }
    }
    Ok(None)
}

/// A text of one token that is no word and no symbol stands for this.
#[test]
fn reads_tokens(rt: HostRuntime) -> Result<(), Fail> {
    let lexemes = [
        ("$noreg", Register(RegisterName::Absent)),
        ("$x32", Register(RegisterName::Other)),
        ("$x07", Register(RegisterName::Other)),
        ("$f1", Register(RegisterName::Other)),
        ("%0", Register(RegisterName::Virtual(0))),
        ("%1073741824", Register(RegisterName::Virtual(BEYOND))),
        (
            "%99999999999999999999999999999999999999999999",
            Register(RegisterName::Virtual(BEYOND)),
        ),
        ("%stack.12", Slot(SlotId(12))),
        ("%stack.0.a.addr", Slot(SlotId(0))),
        ("%stack.0.", Other),
        ("%stack.x", Other),
        ("%fixed-stack.0", Fixed(0)),
        ("%fixed-stack.0.a", Other),
        ("%const.12", Constant(12)),
        ("%const.1073741824", Constant(BEYOND)),
        ("%const.x", Other),
        ("%bb.1073741823", Block(BlockId(1073741823))),
        ("%bb.3.while.body", Block(BlockId(3))),
        ("!1073741823", Node(NodeId(1073741823))),
        ("!1073741824", Node(NodeId(BEYOND))),
        ("!DIExpression", Expression),
        ("!DILocation", InlineLocation),
        ("!DIFile", Other),
        ("-0", Integer(Fits(0))),
        ("007", Integer(Fits(7))),
        ("0xfF", Integer(Fits(255))),
        ("9223372036854775807", Integer(Fits(i64::MAX))),
        ("9223372036854775808", Integer(Large)),
        ("-9223372036854775808", Integer(Fits(i64::MIN))),
        ("-9223372036854775809", Integer(Large)),
        ("340282366920938463463374607431768211455", Integer(Large)),
        ("-340282366920938463463374607431768211456", Integer(Wide)),
        ("0x100000000000000000000000000000000", Integer(Wide)),
        ("2.000000e+00", Float),
        ("-0.5", Float),
        ("'a'", Other),
        (",", Comma),
        ("=", Equals),
        ("(", Open),
        (")", Close),
        (":", Colon),
        ("+", Plus),
        ("-", Minus),
        ("|", Other),
    ];
    assert_eq!(rt; other_lexeme(rt.alloc(), lexemes.as_slice())?, None);
    Ok(())
}
