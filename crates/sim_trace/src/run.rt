//! The text of a whole run.

ghost use Rattle.std.specs.Prelude.{◌≡◌, ◌+◌, ◌*◌, ◌≤◌, ◌^◌, ◌++◌, [], All, IfOk, OnOk, Some};
ghost use Rattle.std.specs.Prelude.{length, slice_index};
ghost use Rattle.rv64_instr.specs.declared.start.CallTarget.{CallTarget};
ghost use Rattle.rv64_instr.specs.Decoded.{ShowsWay};
ghost use Rattle.rv64_instr.specs.Row as row;
ghost use Rattle.mir_func.specs.Objects.{area_of};
ghost use Rattle.dwarf_loclists.specs.Ranges.{Ascend, ArePlaces};
ghost use Rattle.sem_machine.specs.Machine.{Machine as State};
ghost use Rattle.sem_machine.specs.MachineStep.{way_at};
ghost use Rattle.sim_machine.specs.Kept.{StandsFor};
ghost use Rattle.sim_machine.specs.Shown.{entry_at};
ghost use Rattle.sim_trace.specs.Lines.{end_line, left_line, return_line, target_text};
ghost use Rattle.sim_trace.specs.Run.{IsTextOfRun};
ghost use Rattle.sim_trace.specs.steps.Printed.{IsFor, IsLineAdded, IsPrintedStep, IsRunPrinted, IsStopAdded};
ghost use Rattle.sim_trace.specs.steps.Readable.{IsReadable};

use crate::line::push_line;
use crate::variable::{Variable, Variables};
use emit_code::code::Code;
use mir_printer::symbol::push_symbol;
use mir_printer::text::{Text, push_decimal, push_str};
use rv64_instr::decoded::Way;
use rv64_instr::start::{CallTarget, Start};
use sim_machine::answers::CallAnswers;
use sim_machine::ending::{Stepped, Stop};
use sim_machine::hart::Hart;
use sim_machine::machine::MachineSimulator;
use std::alloc::{AllocError, Global};

/// The text of a run of code from a start, for at most `limit` steps: before each step a line with its number, the
/// address in eight hexadecimal digits, the origin of the code there, and the value of each variable; at the end how
/// the run stops. The answers to calls write no byte of the frame.
pub fn print_run<A: CallAnswers + Drop>(
    alloc: Global,
    code: &Code,
    start: &Start,
    answers: A,
    variables: &Variables,
    limit: u32,
) -> Result<Text, AllocError>
    requires spares { A.spares answers (slice_index start.now.regs 2) (area_of code.now.framed.objects) }
    // Addresses have 32 bits.
    requires low { code.now.base + 4 * length code.now.words ≤ 2 ^ 32 }
    requires readable { All (λ v. Ascend v.ranges × ArePlaces v.ranges) variables.now }
    ensures { IfOk result (IsTextOfRun (A.gives answers) code.now start.now variables.now limit) }
{
    let mut machine = MachineSimulator::new(alloc, code, start, answers)?;
    let mut text = Text::new(alloc);
    print_steps(&mut text, &mut machine, variables.as_slice(), limit)?;
    Ok(text)
}

/// Appends the lines of at most `limit` steps.
fn print_steps<A: CallAnswers + Drop>(
    text: &mut Text,
    machine: &mut MachineSimulator<A>,
    variables: &[Variable],
    limit: u32,
) -> Result<(), AllocError>
    requires empty { text.old ≡ [] }
    requires low { machine.old.code.base + 4 * length machine.old.code.words ≤ 2 ^ 32 }
    requires readable { All IsReadable variables.now }
    ensures { OnOk result (IsRunPrinted (A.gives machine.old.answers) machine.old.code variables.now limit
        machine.old.hart text.new) }
{
    for n in 0..limit {
        match print_step(text, machine, variables, n)? {
            Stepped::Went => {}
            Stepped::Stopped(stop) => return push_stop(text, machine, stop),
        }
    }
    push_str(text, "stop steps\n")
}

/// Prints a line and makes the step.
fn print_step<A: CallAnswers + Drop>(
    text: &mut Text,
    machine: &mut MachineSimulator<A>,
    variables: &[Variable],
    number: u32,
) -> Result<Stepped, AllocError>
    requires low { machine.old.code.base + 4 * length machine.old.code.words ≤ 2 ^ 32 }
    requires readable { All IsReadable variables.now }
    ensures code { machine.new.code ≡ machine.old.code }
    ensures answers { machine.new.answers ≡ machine.old.answers }
    ensures printed { IfOk result (λ r. IsPrintedStep (A.gives machine.old.answers) machine.old.code variables.now
        number r machine.old.hart machine.new.hart text.old text.new) }
{
    push_line_before(text, machine, variables, number)?;
    machine.step()
}

/// Appends the line of the next step, unless no entry begins at the program counter.
fn push_line_before<A: CallAnswers + Drop>(
    text: &mut Text,
    machine: &MachineSimulator<A>,
    variables: &[Variable],
    number: u32,
) -> Result<(), AllocError>
    requires low { machine.now.code.base + 4 * length machine.now.code.words ≤ 2 ^ 32 }
    requires readable { All IsReadable variables.now }
    ensures { OnOk result (IsLineAdded number (entry_at machine.now.code.entries machine.now.hart.counter) variables.now
        machine.now.hart text.old text.new) }
{
    match machine.entry() {
        Some(entry) => push_line(text, number, &entry, machine.hart(), variables),
        None => Ok(()),
    }
}

/// Appends how a run stops.
fn push_stop<A: CallAnswers + Drop>(
    text: &mut Text,
    machine: &MachineSimulator<A>,
    stop: Stop,
) -> Result<(), AllocError>
    ensures { OnOk result (IsStopAdded machine.now.code stop machine.now.hart text.old text.new) }
{
    match stop {
        Stop::Ended(way) => {
            let target = machine.leaves_for()?;
            push_end(text, machine.hart(), target, way)
        }
        Stop::Left => push_str(text, "stop left\n"),
        Stop::BadWord(_) => push_str(text, "stop bad word\n"),
    }
}

/// Appends on which way a run ends, and for what if it leaves for a callee.
fn push_end(
    text: &mut Text,
    hart: &Hart,
    target: Option<CallTarget>,
    way: Way,
) -> Result<(), AllocError>
    ensures { OnOk result ((s : State) (w : row.Way row.Callee) → StandsFor hart.now s → ShowsWay way w
        → IsFor s target way w → text.new ≡ text.old ++ end_line (way_at s w) s) }
{
    match way {
        Way::Back => push_return(text, hart.read(10)),
        Way::Tail(_) => push_left(text, "stop tailed ", target),
        Way::Never(_) => push_left(text, "stop gone ", target),
    }
}

/// Appends how a run leaves the function, and for what, if there is something.
fn push_left(
    text: &mut Text,
    how: &'static str,
    target: Option<CallTarget>,
) -> Result<(), AllocError>
    ensures { OnOk result ((t : CallTarget) → target ≡ Some t → text.new ≡ text.old ++ left_line how.now t) }
{
    match target {
        Some(target) => push_left_line(text, how, &target),
        None => Ok(()),
    }
}

fn push_left_line(text: &mut Text, how: &'static str, target: &CallTarget) -> Result<(), AllocError>
    ensures { OnOk result (text.new ≡ text.old ++ left_line how.now target.now) }
{
    push_str(text, how)?;
    push_target(text, target)?;
    text.push(b'\n')
}

/// Appends what is called.
fn push_target(text: &mut Text, target: &CallTarget) -> Result<(), AllocError>
    ensures { OnOk result (text.new ≡ text.old ++ target_text target.now) }
{
    match target {
        CallTarget::Function(name) => push_symbol(text, name.as_slice()),
        CallTarget::Address(a) => push_decimal(text, *a),
    }
}

fn push_return(text: &mut Text, value: u64) -> Result<(), AllocError>
    ensures { OnOk result (text.new ≡ text.old ++ return_line value) }
{
    push_str(text, "stop returned ")?;
    push_decimal(text, value)?;
    text.push(b'\n')
}
