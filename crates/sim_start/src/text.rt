//! The text of a run.

ghost use Rattle.std.specs.Prelude.{◌≤◌, ◌+◌, ◌*◌, ◌^◌, All, IfOk, length};
ghost use Rattle.dwarf_loclists.specs.Ranges.{Ascend, ArePlaces};
ghost use Rattle.sim_start.specs.InitialMachine.{IsTextOfAskedRun};

use crate::answers::ValueAnswers;
use crate::start::start_with;
use emit_code::code::Code;
use mir_printer::text::Text;
use rv64_instr::start::Values;
use rv64_instr::symbol::SymbolAddresses;
use sim_trace::run::print_run;
use sim_trace::variable::Variables;
use std::alloc::{AllocError, Global};

/// The text of a run of machine code with addresses of symbols, arguments and results of calls, for at most `limit`
/// steps. The value of each variable is found by its location list.
pub fn run_text(
    alloc: Global,
    code: &Code,
    variables: &Variables,
    limit: u32,
    symbols: SymbolAddresses,
    arguments: &[u64],
    values: Values,
) -> Result<Text, AllocError>
    // Addresses have 32 bits.
    requires low { code.now.base + 4 * length code.now.words ≤ 2 ^ 32 }
    requires readable { All (λ v. Ascend v.ranges × ArePlaces v.ranges) variables.now }
    ensures { IfOk result (IsTextOfAskedRun code.now symbols arguments.now values variables.now limit) }
{
    let start = start_with(alloc, symbols, arguments);
    print_run(
        alloc,
        code,
        &start,
        ValueAnswers { values },
        variables,
        limit,
    )
}
