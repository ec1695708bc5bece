//! Reads a MIR file from standard input, splits it into documents, and counts the tokens of its functions' bodies: the
//! program whose instruction counts are in docs/PERFORMANCE.md.
#![tactic(auto)]

use read_documents::frame::documents;
use read_lexer::comment::{before_comment, before_memory_operands};
use read_lexer::lexer::tokens;
use std::io;

fn main(rt: HostRuntime) -> io::Result<()> {
    let text = io::read_to_string(rt.alloc(), rt.reader())?;
    let text = text.as_bytes();
    if text.len() > 1_000_000_000 {
        return Ok(());
    }
    let found = documents(rt.alloc(), false, text)?;
    let mut count: usize = 0;
    for function in found.functions.as_slice() {
        for line in function.body.as_slice() {
            let code = before_memory_operands(before_comment(line.text.as_slice()));
            if let Ok(found) = tokens(rt.alloc(), false, code) {
                count = count.wrapping_add(found.len());
            }
        }
    }
    let functions = found.functions.len();
    println!(rt; "{functions} functions, {count} tokens")
}
