//! The text of a run.

ghost use Rattle.std.specs.Prelude.{◌≡◌, ◌↔◌, IfOk, IsTrue, MatchOption};
ghost use Rattle.run_command.specs.Runs.{IsFirstNamed, HasNone, IsRunOf, CanRun};

use compile_program::compile::Compilation;
use compile_program::lists::all_lists;
use listing_text::output::ListedFunction;
use mir_printer::text::Text;
use rv64_instr::start::Values;
use rv64_instr::symbol::SymbolAddresses;
use sim_start::sim_trace_crate::variable::variables_of;
use sim_start::text::run_text;
use std::alloc::{AllocError, Global};

/// The text of a run, for at most `limit` steps, of the first function with a name, with these addresses of symbols,
/// these arguments, and these values as the results of its calls. It is `None` if no function has the name.
pub fn run(
    alloc: Global,
    compilation: &Compilation,
    name: &[u8],
    limit: u32,
    symbols: SymbolAddresses,
    arguments: &[u64],
    values: Values,
) -> Result<Option<Text>, AllocError>
    requires { CanRun compilation.now }
    ensures { IfOk result (λ o. MatchOption o (HasNone name.now compilation.now.output.functions)
        (IsRunOf compilation.now name.now limit symbols arguments.now values)) }
{
    let functions = compilation.output.functions.as_slice();
    let Some(number) = first_named(functions, name) else {
        return Ok(None);
    };
    let listed = functions[number].variables.as_slice();
    let lists = all_lists(alloc, compilation.functions.as_slice())?;
    let variables = variables_of(alloc, listed, lists.as_slice())?;
    let code = &compilation.functions.as_slice()[number].code;
    let text = run_text(alloc, code, &variables, limit, symbols, arguments, values)?;
    Ok(Some(text))
}

/// The index of the first function with a name.
fn first_named(functions: &[ListedFunction], name: &[u8]) -> Option<usize>
    ensures { MatchOption result (HasNone name.now functions.now) (IsFirstNamed name.now functions.now) }
{
    for (number, function) in functions.iter().enumerate() {
        if is_named(function, name) {
            return Some(number);
        }
    }
    None
}

/// Whether a function has a name.
fn is_named(function: &ListedFunction, name: &[u8]) -> bool
    ensures { IsTrue result ↔ (function.now.name ≡ name.now) }
{
    function.name.as_slice() == name
}
