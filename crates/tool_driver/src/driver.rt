//! The run of a command.

ghost use Rattle.std.specs.Prelude.{◌≡◌, ◌≢◌, ◌≤◌, ◌⊎◌, [], Bool, Some, IfOk, OnOk, IfErr, IsErrOf, map, string_bytes};
ghost use Rattle.cli.specs.Command.{AreWithin, IsCommand};
ghost use Rattle.cli.specs.declared.command.CompilePlan.{CompilePlan};
ghost use Rattle.cli.specs.declared.command.ObjectPlan.{ObjectPlan};
ghost use Rattle.cli.specs.declared.command.PassPipeline.{PassPipeline};
ghost use Rattle.cli.specs.declared.command.RunPlan.{RunPlan};
ghost use Rattle.cli.specs.declared.command.TestPlan.{TestPlan};
ghost use Rattle.cli_numbers.specs.declared.generation.Generation.{Generation};
ghost use Rattle.gen_text.specs.GeneratedText.{generated_text};
ghost use Rattle.tool_driver.specs.Compiled.{plan_steps};
ghost use Rattle.cli.specs.Fault.{line_of};
ghost use Rattle.tool_driver.specs.Run.{AreCommand, AnswersInput, Finishes, IsCutOff};
ghost use Rattle.tool_driver.specs.Run.{KeepsHeadline, KeepsRegisters, StopsAtReturns, WroteExactly, WroteLaidOut};
ghost use Rattle.tool_driver.specs.Run.{WroteKept, WroteWords, WrotePassed, WroteReport, WroteObject, WroteRun};
ghost use Rattle.tool_driver.specs.Run.{WroteTest, WroteStripped, WroteFrameSection, WroteUnwinding, WroteRangesSection};
ghost use Rattle.tool_driver.specs.Run.{HasReadProgram};
ghost use Rattle.tool_driver.specs.Refusals.{TellsRefusal, IsAnswerable};
ghost use Rattle.tool_driver.specs.steps.Ends.{HasReadNone, Explains, ReadingEnds};
ghost use Rattle.tool_driver.specs.Stream.{change, MetFault, IsWrittenWhole, IsTold};

use crate::compiled::{
    compiled_text, linkable_text, listing_text, object_text, report_text, run_text, test_text,
};
use crate::telling::tell;
use crate::whole_text::read_whole;
use base_io::sink::Sink;
use base_io::source::Source;
use base_io::writing::write_all;
use cli::command::{Command, LinkableForm, ObjectPlan, parse};
use cli::fault::Fault;
use cli::status::Status;
use gen_text::print::print_generated;
use mir_printer::text::Text;
use read_input::error::InputError;
use read_input::input::read_input;
use read_program::program::Program;
use readback_strip::strip_command_crate::strip_text::strip_text;
use std::alloc::Global;

/// The greatest length of an input, in bytes: 16 MiB.
pub const LIMIT: usize = 16_777_216;

/// Runs the command that the words are: reads the input to its end, and writes the command's output for the functions
/// in it. `compile`, with the options for a list of passes and for registers that may be spilled, writes the sections
/// and the listing of the functions after these passes (`--passes=none`: of the functions as they were read; all
/// passes if there is no list), with `--frame` the section `.debug_frame` too, and with `--inline` the inlined
/// functions with `.debug_rnglists`. `listing`, with the first two options, writes the listing alone, and `report` at
/// how many of each function's words each variable has a location, and what the passes lost. `object`, with the same
/// two options, writes the relocatable object of the functions, with `--linkable` one that a linker places. `run`, with
/// a function's name, a number of steps and such options, writes a line for each step of its machine code, with the
/// values of its variables. `strip` writes the functions without their debug items. `gen` reads nothing, and writes the
/// text of the function that it generates from two numbers. `selftest`, with such numbers and the options of `listing`,
/// reads nothing either, and writes how many values the location lists of such a function have along a run of its
/// machine code. A fault is reported by a line on `faults`.
pub fn mirdwarf<S: Source, K: Sink, E: Sink>(
    alloc: Global,
    words: &[String],
    input: &mut S,
    output: &mut K,
    faults: &mut E,
) -> Status
    // When each status comes, and what stands on the streams then. `Memory` may come at any growth.
    ensures done { result ≡ Status.Done → Finishes (map string_bytes words.now)
        (change S.left S.faults input.old input.new) (change K.written K.faults output.old output.new) }
    ensures refused { result ≡ Status.Refused → TellsRefusal (map string_bytes words.now)
        (change S.left S.faults input.old input.new) (change E.written E.faults faults.old faults.new) }
    ensures usage { result ≡ Status.Usage → AreCommand (map string_bytes words.now) → ⊥ }
    ensures no_command { (AreCommand (map string_bytes words.now) → ⊥) →
        (result ≡ Status.Usage) ⊎ (result ≡ Status.Memory) }
    ensures read_fault { result ≡ Status.ReadFault → MetFault (change S.left S.faults input.old input.new) }
    ensures write_fault { result ≡ Status.WriteFault → MetFault (change K.written K.faults output.old output.new) }

    // What `compile` writes keeps its promise. The machine on the written code runs along with the source that was
    // read, and the written lists tell the truth.
    ensures headline { (plan : CompilePlan) → result ≡ Status.Done →
        IsCommand (map string_bytes words.now) (Command.Compile plan) →
        KeepsHeadline plan.plan.linked (change S.left S.faults input.old input.new)
        (change K.written K.faults output.old output.new) }
    // At a return the machine gives back the registers that a function is to keep.
    ensures callee_saved { (plan : CompilePlan) → result ≡ Status.Done →
        IsCommand (map string_bytes words.now) (Command.Compile plan) →
        KeepsRegisters plan.plan.linked (change S.left S.faults input.old input.new)
        (change K.written K.faults output.old output.new) }
    // It stops only where its run ends, or where it waits for the answer of a call.
    ensures stops { (plan : CompilePlan) → result ≡ Status.Done →
        IsCommand (map string_bytes words.now) (Command.Compile plan) →
        StopsAtReturns plan.plan.linked (change S.left S.faults input.old input.new)
        (change K.written K.faults output.old output.new) }
    // The lists say the place of a variable's value wherever the value is in one on every path, and nothing elsewhere.
    ensures exact { (plan : CompilePlan) → result ≡ Status.Done →
        IsCommand (map string_bytes words.now) (Command.Compile plan) →
        WroteExactly plan.plan.linked (change S.left S.faults input.old input.new)
        (change K.written K.faults output.old output.new) }
    // While a place keeps the value that a mark told of it, the lists give the variable a place.
    ensures kept { (plan : CompilePlan) → result ≡ Status.Done →
        IsCommand (map string_bytes words.now) (Command.Compile plan) →
        WroteKept plan.plan.linked (change S.left S.faults input.old input.new)
        (change K.written K.faults output.old output.new) }
    // Functions, lines, objects and variables stand where they should, with their names.
    ensures laid_out { (plan : CompilePlan) → result ≡ Status.Done →
        IsCommand (map string_bytes words.now) (Command.Compile plan) →
        WroteLaidOut plan.plan.linked (change S.left S.faults input.old input.new)
        (change K.written K.faults output.old output.new) }
    // At each line with an address stand the bytes of its instruction.
    ensures words { (plan : CompilePlan) → result ≡ Status.Done →
        IsCommand (map string_bytes words.now) (Command.Compile plan) →
        WroteWords plan.plan.linked (change S.left S.faults input.old input.new)
        (change K.written K.faults output.old output.new) }
    // The lines show the functions that passes made of those that were read, with their frames: without passes, those
    // that were read. The other sections are those of the program's unit, of its table of lines, which gives each byte
    // of machine code its line of the source, and of the call frame information of its machine code.
    ensures passed { (plan : CompilePlan) → result ≡ Status.Done →
        IsCommand (map string_bytes words.now) (Command.Compile plan) →
        WrotePassed plan.plan.linked (plan_steps plan.plan) (change S.left S.faults input.old input.new)
        (change K.written K.faults output.old output.new) }
    // `.debug_frame`, the section of call frame information, is among them with `--frame`, and isn't without it.
    ensures frame_section { (plan : CompilePlan) → result ≡ Status.Done →
        IsCommand (map string_bytes words.now) (Command.Compile plan) →
        WroteFrameSection plan.plan.linked plan.frame (change S.left S.faults input.old input.new)
        (change K.written K.faults output.old output.new) }
    // At each line that the machine comes to it unwinds to the function's start: its rules find what the stack pointer,
    // the return address and the registers that a function is to keep were there.
    ensures unwinds { (plan : CompilePlan) → result ≡ Status.Done →
        IsCommand (map string_bytes words.now) (Command.Compile plan) →
        WroteUnwinding plan.plan.linked (change S.left S.faults input.old input.new)
        (change K.written K.faults output.old output.new) }
    // `.debug_rnglists`, the section of the ranges of inlined functions, is among them with `--inline` alone.
    ensures ranges_section { (plan : CompilePlan) → result ≡ Status.Done →
        IsCommand (map string_bytes words.now) (Command.Compile plan) →
        WroteRangesSection plan.plan.linked plan.inline (change S.left S.faults input.old input.new)
        (change K.written K.faults output.old output.new) }

    // What `report` writes is the report of what passes made of the functions that were read: of each the words of its
    // machine code, at how many of them the list of each variable gives it a place, and what passes lost of it.
    ensures reported { (plan : PassPipeline) → result ≡ Status.Done →
        IsCommand (map string_bytes words.now) (Command.Report plan) →
        WroteReport plan (change S.left S.faults input.old input.new)
        (change K.written K.faults output.old output.new) }

    // What `object` writes is the relocatable object of an output that keeps the promises of what `compile` writes: its
    // sections, a symbol for each function and each other function that is called, and a relocation at each call. With
    // `--linkable` it is one that a linker places, with location lists that are true in every frame: wherever it does,
    // the code runs in the environment of the placement, and the debug sections are those of the same entries, rows and
    // functions, moved there; and where a function is suspended, the lists give places that hold the source's values,
    // whatever the callee did.
    ensures object { (asked : ObjectPlan) → result ≡ Status.Done →
        IsCommand (map string_bytes words.now) (Command.Object asked) →
        WroteObject asked (change S.left S.faults input.old input.new)
        (change K.written K.faults output.old output.new) }

    // What `run` writes is the run of the machine on the code of the first function of the name, line by line: it runs
    // along with the source that was read, whose values are those that the lines tell.
    ensures ran { (plan : RunPlan) → result ≡ Status.Done → IsCommand (map string_bytes words.now) (Command.Run plan) →
        WroteRun plan (change S.left S.faults input.old input.new) (change K.written K.faults output.old output.new) }

    // `strip` writes the functions that were read without their debug items. Without `--linked` what it writes is read
    // in turn: it stands for the program without its debug items, and `strip` writes the same text of it again.
    ensures stripped { (linked : Bool) → result ≡ Status.Done →
        IsCommand (map string_bytes words.now) (Command.Strip linked) →
        WroteStripped linked (change S.left S.faults input.old input.new)
        (change K.written K.faults output.old output.new) }

    // `gen` reads nothing, and writes the text of the function that its words ask for.
    ensures generated { (g : Generation) → result ≡ Status.Done →
        IsCommand (map string_bytes words.now) (Command.Gen g) →
        IsWrittenWhole (change K.written K.faults output.old output.new) (generated_text g.number g.blocks) }
    ensures generated_unread { (g : Generation) → IsCommand (map string_bytes words.now) (Command.Gen g) →
        input.new ≡ input.old }

    // `selftest` reads nothing, and writes the self-test that its words ask for: of what passes make of the function
    // that is made up, of the run of its machine code beside it, how many values its lists give and how many of its
    // variables' values are known. No more are given than are known.
    ensures tested { (test : TestPlan) → result ≡ Status.Done →
        IsCommand (map string_bytes words.now) (Command.SelfTest test) →
        WroteTest test (change K.written K.faults output.old output.new) }
    ensures tested_unread { (test : TestPlan) → IsCommand (map string_bytes words.now) (Command.SelfTest test) →
        input.new ≡ input.old }

    // A text that the command answers is answered, unless a fault is met or memory runs out.
    ensures complete { (command : Command) → IsCommand (map string_bytes words.now) command →
        IsAnswerable command (S.left input.old) → ¬ MetFault (change S.left S.faults input.old input.new) →
        ¬ MetFault (change K.written K.faults output.old output.new) →
        (result ≡ Status.Done) ⊎ (result ≡ Status.Memory) }

    // What else it leaves: nothing is read where the words are no command, and nothing is written but at the end.
    ensures unread { result ≡ Status.Usage → input.new ≡ input.old }
    ensures unwritten { result ≢ Status.Done → result ≢ Status.WriteFault → output.new ≡ output.old }
    ensures cut_off { result ≡ Status.WriteFault → IsCutOff (map string_bytes words.now)
        (change S.left S.faults input.old input.new) (change K.written K.faults output.old output.new) }

    // What it tells.
    ensures quiet { result ≡ Status.Done → faults.new ≡ faults.old }
    ensures tells_usage { result ≡ Status.Usage →
        IsTold (change E.written E.faults faults.old faults.new) (line_of Fault.Usage) }
    ensures tells_memory { result ≡ Status.Memory →
        IsTold (change E.written E.faults faults.old faults.new) (line_of Fault.Memory) }
    ensures tells_read { result ≡ Status.ReadFault →
        IsTold (change E.written E.faults faults.old faults.new) (line_of Fault.Read) }
    ensures tells_write { result ≡ Status.WriteFault →
        IsTold (change E.written E.faults faults.old faults.new) (line_of Fault.Write) }

    // Counts never fall.
    ensures input_counts { S.faults input.old ≤ S.faults input.new }
    ensures output_counts { K.faults output.old ≤ K.faults output.new }
    ensures faults_counts { E.faults faults.old ≤ E.faults faults.new }
{
    match run(alloc, words, input, output) {
        Ok(()) => Status::Done,
        Err(fault) => tell(fault, faults),
    }
}

/// The run of a command, but for the line that reports a fault.
fn run<S: Source, K: Sink>(
    alloc: Global,
    words: &[String],
    input: &mut S,
    output: &mut K,
) -> Result<(), Fault>
    ensures done { OnOk result (Finishes (map string_bytes words.now)
        (change S.left S.faults input.old input.new) (change K.written K.faults output.old output.new)) }
    ensures err { IfErr result (Explains (map string_bytes words.now)
        (change S.left S.faults input.old input.new) (change K.written K.faults output.old output.new)) }
    ensures unread { IsErrOf result Fault.Usage → input.new ≡ input.old }
    ensures generated_unread { (g : Generation) → IsCommand (map string_bytes words.now) (Command.Gen g) →
        input.new ≡ input.old }
    ensures tested_unread { (test : TestPlan) → IsCommand (map string_bytes words.now) (Command.SelfTest test) →
        input.new ≡ input.old }
    ensures unwritten { IfErr result (λ fault. fault ≢ Fault.Write → output.new ≡ output.old) }
    ensures input_counts { S.faults input.old ≤ S.faults input.new }
    ensures output_counts { K.faults output.old ≤ K.faults output.new }
{
    let Some(command) = parse(alloc, words)? else {
        return Err(Fault::Usage);
    };
    let text = answered(alloc, command, input)?;
    match write_all(output, text.as_slice()) {
        Ok(()) => Ok(()),
        Err(_) => Err(Fault::Write),
    }
}

/// The output of a command.
fn answered<S: Source>(alloc: Global, command: Command, input: &mut S) -> Result<Text, Fault>
    requires { AreWithin command }
    ensures ok { IfOk result (AnswersInput command (change S.left S.faults input.old input.new)) }
    ensures err { IfErr result (ReadingEnds command (change S.left S.faults input.old input.new)) }
    ensures unread { (g : Generation) → command ≡ Command.Gen g → input.new ≡ input.old }
    ensures test_unread { (test : TestPlan) → command ≡ Command.SelfTest test → input.new ≡ input.old }
    ensures counts { S.faults input.old ≤ S.faults input.new }
{
    match command {
        Command::Compile(plan) => {
            let program = read(alloc, plan.plan.linked, input)?;
            compiled_text(alloc, &program, &plan)
        }
        Command::Listing(plan) => {
            let program = read(alloc, plan.linked, input)?;
            listing_text(alloc, &program, &plan)
        }
        Command::Report(plan) => {
            let program = read(alloc, plan.linked, input)?;
            report_text(alloc, &program, &plan)
        }
        Command::Object(asked) => object_answered(alloc, asked, input),
        Command::Run(plan) => {
            let program = read(alloc, plan.plan.linked, input)?;
            run_text(alloc, &program, plan)
        }
        Command::Strip(linked) => {
            let program = read(alloc, linked, input)?;
            Ok(strip_text(alloc, program.functions.as_slice())?)
        }
        Command::Gen(asked) => Ok(print_generated(alloc, asked.number, asked.blocks)?),
        Command::SelfTest(asked) => test_text(alloc, &asked),
    }
}

/// The output of `object`.
fn object_answered<S: Source>(
    alloc: Global,
    asked: ObjectPlan,
    input: &mut S,
) -> Result<Text, Fault>
    ensures ok { IfOk result (AnswersInput (Command.Object asked) (change S.left S.faults input.old input.new)) }
    ensures err { IfErr result (ReadingEnds (Command.Object asked) (change S.left S.faults input.old input.new)) }
    ensures counts { S.faults input.old ≤ S.faults input.new }
{
    match asked.form {
        Some(form) => linkable_answered(alloc, &asked, form, input),
        None => {
            let program = read(alloc, asked.plan.linked, input)?;
            object_text(alloc, &program, &asked)
        }
    }
}

/// The output of `object` with `--linkable`, for which the text is kept: its metadata is read again.
fn linkable_answered<S: Source>(
    alloc: Global,
    asked: &ObjectPlan,
    form: LinkableForm,
    input: &mut S,
) -> Result<Text, Fault>
    requires { asked.now.form ≡ Some form }
    ensures ok { IfOk result (AnswersInput (Command.Object asked.now) (change S.left S.faults input.old input.new)) }
    ensures err { IfErr result (ReadingEnds (Command.Object asked.now) (change S.left S.faults input.old input.new)) }
    ensures counts { S.faults input.old ≤ S.faults input.new }
{
    let whole = read_whole(alloc, asked.plan.linked, input)?;
    linkable_text(alloc, &whole.lines, &whole.program, asked, form)
}

/// The program in an input, which is read to its end; `linked` is whether the linked language is read.
fn read<S: Source>(alloc: Global, linked: bool, input: &mut S) -> Result<Program, Fault>
    ensures ok { IfOk result (HasReadProgram linked (change S.left S.faults input.old input.new)) }
    ensures err { IfErr result (HasReadNone linked (change S.left S.faults input.old input.new)) }
    ensures counts { S.faults input.old ≤ S.faults input.new }
{
    match read_input(alloc, linked, input, LIMIT) {
        Ok(program) => some_function(program),
        Err(InputError::Refused(refusal)) => Err(Fault::Refused(refusal)),
        Err(InputError::Failed) => Err(Fault::Read),
        Err(InputError::TooLong) => Err(Fault::TooLong),
        Err(InputError::Memory) => Err(Fault::Memory),
    }
}

/// A program with a function.
pub(crate) fn some_function(program: Program) -> Result<Program, Fault>
    ensures ok { IfOk result (λ same. (same ≡ program) × (program.functions ≢ [])) }
    ensures err { IfErr result (λ fault. (fault ≡ Fault.NoFunction) × (program.functions ≡ [])) }
{
    if program.functions.is_empty() {
        return Err(Fault::NoFunction);
    }
    Ok(program)
}
