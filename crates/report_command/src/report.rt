//! The text of the report.

ghost use Rattle.std.specs.Prelude.{◌≡◌, ◌++◌, IfOk, OnOk, map};
ghost use Rattle.report_command.specs.ProgramReport.{HasLists, HaveLists, part_of, parts_of, compilation_report};
ghost use Rattle.report_function.specs.ReportText.{function_report, program_report};

use compile_program::compile::Compilation;
use compile_program::compiled_function::CompiledFunction;
use listing_text::output::{ListedFunction, ListedVariable};
use mir_printer::text::Text;
use report_function::make::make_report;
use report_function::report::VariableNames;
use report_function::text::print_report;
use std::alloc::{AllocError, Global};

/// The reports of the functions of a compiled program, one after the other.
pub fn report(alloc: Global, compilation: &Compilation) -> Result<Text, AllocError>
    requires { HaveLists compilation.now.output.functions compilation.now.functions }
    ensures { IfOk result (λ text. text ≡ compilation_report compilation.now) }
{
    let mut text = Text::new(alloc);
    push_reports(
        alloc,
        &mut text,
        compilation.output.functions.as_slice(),
        compilation.functions.as_slice(),
    )?;
    Ok(text)
}

/// Appends the reports of functions, each of its listing and of what is made of it.
fn push_reports(
    alloc: Global,
    text: &mut Text,
    listings: &[ListedFunction],
    functions: &[CompiledFunction],
) -> Result<(), AllocError>
    requires { HaveLists listings.now functions.now }
    ensures { OnOk result (text.new ≡ text.old ++ program_report (parts_of listings.now functions.now)) }
{
    let Some((listed, listings)) = listings.split_first() else {
        return Ok(());
    };
    let Some((function, functions)) = functions.split_first() else {
        return Ok(());
    };
    let report = one_report(alloc, listed, function)?;
    text.extend_from_slice(report.as_slice())?;
    push_reports(alloc, text, listings, functions)
}

/// The report of a function.
fn one_report(
    alloc: Global,
    listed: &ListedFunction,
    function: &CompiledFunction,
) -> Result<Text, AllocError>
    requires { HasLists listed.now function.now }
    ensures { IfOk result (λ text. text ≡ function_report (part_of listed.now function.now)) }
{
    let names = names_of(alloc, listed.variables.as_slice())?;
    let report = make_report(
        alloc,
        &function.code,
        &names,
        function.lists.as_slice(),
        &function.losses,
    )?;
    print_report(alloc, &report)
}

/// The names of variables.
fn names_of(alloc: Global, variables: &[ListedVariable]) -> Result<VariableNames, AllocError>
    ensures { IfOk result (λ names. names ≡ map (λ v. v.name) variables.now) }
{
    let mut names = VariableNames::new(alloc);
    for variable in variables {
        names.push(variable.name.copy()?)?;
    }
    Ok(names)
}
