//! The text of a generated function.

ghost use Rattle.std.specs.Prelude.{◌≡◌, ◌+◌, ◌++◌, ◌<◌, ◌≤◌, IfOk, OnOk};
ghost use Rattle.gen_text.specs.GeneratedText.{variable_line, head_text, metadata_text, generated_text};

use gen_function::generator::generate;
use mir_func_printer::print::print_func;
use mir_printer::text::{Text, push_numbered, push_str};
use mir_substitution::substitutions::Substitutions;
use std::alloc::{AllocError, Global};

/// The MIR file of the function that is generated from a number below 65,537, with 1 to 512 blocks: the metadata of its
/// four variables, `a` to `d`, and its document.
pub fn print_generated(alloc: Global, number: u32, blocks: u32) -> Result<Text, AllocError>
    requires number { number < 65537 }
    requires some { 1 ≤ blocks }
    requires few { blocks ≤ 512 }
    ensures { IfOk result (λ text. text ≡ generated_text number blocks) }
{
    let function = generate(alloc, number, blocks)?;
    let document = print_func(alloc, &function, &Substitutions::new(alloc))?;
    let mut text = Text::new(alloc);
    push_metadata(&mut text)?;
    text.extend_from_slice(document.as_slice())?;
    Ok(text)
}

/// Appends the document of LLVM IR.
#[tactic(auto, unfolding(crate::specs::GeneratedText::metadata_text))]
fn push_metadata(text: &mut Text) -> Result<(), AllocError>
    ensures { OnOk result (text.new ≡ text.old ++ metadata_text) }
{
    push_head(text)?;
    push_variable(text, 10, b'a')?;
    push_variable(text, 11, b'b')?;
    push_variable(text, 12, b'c')?;
    push_variable(text, 13, b'd')?;
    push_str(text, "...\n")
}

/// Appends the lines up to that of the subprogram.
#[tactic(auto, unfolding(crate::specs::GeneratedText::head_text))]
fn push_head(text: &mut Text) -> Result<(), AllocError>
    ensures { OnOk result (text.new ≡ text.old ++ head_text) }
{
    push_str(text, "--- |\n")?;
    push_str(text, "  define void @gen() !dbg !2 { ret void }\n")?;
    push_str(
        text,
        "  !1 = !DIFile(filename: \"gen.c\", directory: \"/gen\")\n",
    )?;
    push_str(
        text,
        "  !2 = distinct !DISubprogram(name: \"gen\", file: !1, line: 1)\n",
    )
}

/// Appends the line of a variable: its node, and its name of one letter.
#[tactic(auto, unfolding(crate::specs::GeneratedText::variable_line))]
fn push_variable(text: &mut Text, node: u32, letter: u8) -> Result<(), AllocError>
    ensures { OnOk result (text.new ≡ text.old ++ variable_line node letter) }
{
    push_numbered(text, "  !", node)?;
    push_str(text, " = !DILocalVariable(name: \"")?;
    text.push(letter)?;
    push_str(text, "\", scope: !2, file: !1, line: 1)\n")
}
