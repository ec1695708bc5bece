//! The text of a function.

ghost use Rattle.std.specs.Prelude.{◌≡◌, ◌++◌, [], IfOk, OnOk};
ghost use Rattle.mir_func_printer.specs.FuncText.{document_with, exposure_text, stack_and_body, func_text};
ghost use Rattle.mir_func_printer.specs.FuncText.{fixed_text, pool_text, linked_func_text};

use crate::body::push_blocks;
use crate::fixed::push_fixed;
use crate::name::push_name;
use crate::pool::push_pool;
use crate::stack::{push_stack, push_substitutions};
use mir_exposure::exposure::Exposure;
use mir_func::func::Func;
use mir_pool::constant::PoolConstant;
use mir_printer::text::{Text, push_str};
use mir_substitution::substitutions::Substitutions;
use std::alloc::{AllocError, Global};

/// Appends what begins the document of a function, with its name.
fn push_head(text: &mut Text, f: &Func) -> Result<(), AllocError>
    ensures { OnOk result (text.new ≡ text.old ++ document_with f.now []) }
{
    push_str(text, "---\nname: ")?;
    push_name(text, f.name.as_slice())?;
    push_str(text, "\n")
}

/// Appends the key that says that a function exposes everything, unless it doesn't.
fn push_exposure(text: &mut Text, exposure: Exposure) -> Result<(), AllocError>
    ensures { OnOk result (text.new ≡ text.old ++ exposure_text exposure) }
{
    match exposure {
        Exposure::Nothing | Exposure::Globals => Ok(()),
        Exposure::Everything => push_str(text, "exposesReturnsTwice: true\n"),
    }
}

/// Appends the document of a function from its stack on.
fn push_stack_and_body(text: &mut Text, f: &Func, subs: &Substitutions) -> Result<(), AllocError>
    ensures { OnOk result (text.new ≡ text.old ++ stack_and_body f.now subs.now) }
{
    push_stack(text, f.slots.as_slice(), f.objects.as_slice())?;
    push_substitutions(text, subs.entries())?;
    push_str(text, "body: |\n")?;
    push_blocks(text, f.blocks.as_slice())?;
    push_str(text, "...\n")
}

/// Appends the document of a function from its fixed objects on.
fn push_frame_and_body(text: &mut Text, f: &Func, subs: &Substitutions) -> Result<(), AllocError>
    ensures { OnOk result (text.new ≡ text.old ++ (fixed_text f.now.objects ++ stack_and_body f.now subs.now)) }
{
    push_fixed(text, f.objects.as_slice())?;
    push_stack_and_body(text, f, subs)
}

/// Appends the document of a function from the constants of its pool on.
fn push_pool_and_body(
    text: &mut Text,
    f: &Func,
    pool: &[PoolConstant],
    subs: &Substitutions,
) -> Result<(), AllocError>
    ensures { OnOk result (text.new ≡ text.old ++ (pool_text pool.now ++ stack_and_body f.now subs.now)) }
{
    push_pool(text, pool)?;
    push_stack_and_body(text, f, subs)
}

/// Appends the document of a function from its fixed objects on, with the constants of its pool.
fn push_linked_frame_and_body(
    text: &mut Text,
    f: &Func,
    pool: &[PoolConstant],
    subs: &Substitutions,
) -> Result<(), AllocError>
    ensures { OnOk result (text.new
        ≡ text.old ++ (fixed_text f.now.objects ++ (pool_text pool.now ++ stack_and_body f.now subs.now))) }
{
    push_fixed(text, f.objects.as_slice())?;
    push_pool_and_body(text, f, pool, subs)
}

/// The document of a function and its substitutions.
#[tactic(auto, unfolding(crate::specs::FuncText::func_text))]
pub fn print_func(alloc: Global, f: &Func, subs: &Substitutions) -> Result<Text, AllocError>
    ensures { IfOk result (λ text. text ≡ func_text f.now subs.now) }
{
    let mut text = Text::new(alloc);
    push_head(&mut text, f)?;
    push_frame_and_body(&mut text, f, subs)?;
    Ok(text)
}

/// The document of a function, the constants of its pool, its substitutions and what it exposes.
#[tactic(auto, unfolding(crate::specs::FuncText::linked_func_text))]
pub fn print_linked_func(
    alloc: Global,
    f: &Func,
    pool: &[PoolConstant],
    subs: &Substitutions,
    exposure: Exposure,
) -> Result<Text, AllocError>
    ensures { IfOk result (λ text. text ≡ linked_func_text f.now pool.now subs.now exposure) }
{
    let mut text = Text::new(alloc);
    push_head(&mut text, f)?;
    push_exposure(&mut text, exposure)?;
    push_linked_frame_and_body(&mut text, f, pool, subs)?;
    Ok(text)
}
