//! The commands, and the words of a command line that are each of them.

ghost use Rattle.std.specs.Prelude.{◌≡◌, ◌↔◌, ◌∷◌, [], Bool, false, map, string_bytes, Some, IfOk};
ghost use Rattle.cli.specs.Command.{IsCommand, IsPlain, GivesPlan, GivesPlainPlan, IsPlainPlan, IsPlanOf, reserve_in};
ghost use Rattle.cli.specs.Command.{GivesRun, GivesSteps, IsRunPlanOf, addresses_given, has_idle_symbols, numbers_in};
ghost use Rattle.cli.specs.Command.{form_in, has_idle_form, has_object_words, passes_in, GivesObject, IsObjectPlanOf};
ghost use Rattle.cli.specs.Command.{GivesTest, GivesTestOf, GivesCompile, IsCompileOf, strip_words};
ghost use Rattle.cli.specs.declared.command.CompilePlan.{CompilePlan};
ghost use Rattle.cli.specs.declared.command.Command.{Command};
ghost use Rattle.cli.specs.declared.command.ObjectPlan.{ObjectPlan};
ghost use Rattle.cli.specs.declared.command.PassPipeline.{PassPipeline};
ghost use Rattle.cli.specs.declared.command.RunPlan.{RunPlan};
ghost use Rattle.cli.specs.declared.command.TestPlan.{TestPlan};

use crate::options::Options;
use crate::parse_options::options;
use cli_numbers::generation::{Generation, asked};
use cli_numbers::list::Numbers;
use cli_numbers::number::number;
use pass_list::kind::is_same;
use pass_list::list::PassList;
use rv64_instr::name::Name;
use rv64_instr::reg::Registers;
use rv64_instr::symbol::SymbolAddresses;
use std::alloc::{AllocError, Global};

/// The greatest number of steps of a run.
const MAX_STEPS: u64 = 1_000_000;

/// How each function is read, and transformed before it is compiled.
#[derive(Debug, Drop)]
pub struct PassPipeline {
    /// The passes, in their order.
    pub passes: PassList,
    /// The registers that may be spilled.
    pub reserve: Registers,
    /// Whether functions are read in the linked language.
    pub linked: bool,
}

/// What `compile` writes.
#[derive(Debug, Drop)]
pub struct CompilePlan {
    /// The passes before compilation, and the registers that may be spilled.
    pub plan: PassPipeline,
    /// Whether the section `.debug_frame` is among the sections.
    pub frame: bool,
    /// Whether the entries tell of inlined functions, and `.debug_rnglists` is among the sections.
    pub inline: bool,
}

/// The form of an object that a linker places.
#[derive(Clone, Copy, Debug, PartialEq, Eq)]
pub struct LinkableForm {
    /// Whether the section `.debug_frame` is among the sections.
    pub frame: bool,
    /// Whether its functions may be called with floating-point numbers in registers.
    pub float_abi: bool,
}

/// The object that `object` writes.
#[derive(Debug, Drop)]
pub struct ObjectPlan {
    /// The passes before compilation, and the registers that may be spilled.
    pub plan: PassPipeline,
    /// The form of an object that a linker places, if it is to be one.
    pub form: Option<LinkableForm>,
}

/// The run of a function.
#[derive(Debug, Drop)]
pub struct RunPlan {
    /// The function's name.
    pub name: Name,
    /// The greatest number of its steps: 0 to 1,000,000.
    pub steps: u32,
    /// The passes before compilation, and the registers that may be spilled.
    pub plan: PassPipeline,
    /// The arguments of the function.
    pub arguments: Numbers,
    /// The return values of the functions that it calls.
    pub answers: Numbers,
    /// The addresses of symbols.
    pub symbols: SymbolAddresses,
}

/// The self-test of a function.
#[derive(Debug, Drop)]
pub struct TestPlan {
    /// The function, which is generated.
    pub function: Generation,
    /// The passes before compilation, and the registers that may be spilled.
    pub plan: PassPipeline,
}

/// A command with what it needs.
#[derive(Debug, Drop)]
pub enum Command {
    /// Writes the sections and the listing of each function after passes.
    Compile(CompilePlan),
    /// Writes the listing of each function alone after passes.
    Listing(PassPipeline),
    /// Writes at how many of each function's words each variable has a location, after passes, and what the passes
    /// lost.
    Report(PassPipeline),
    /// Writes the relocatable object of the functions after passes.
    Object(ObjectPlan),
    /// Writes the steps of a function's machine code, with the values of its variables.
    Run(RunPlan),
    /// Writes each function without its debug items. The flag is whether functions are read in the linked language.
    Strip(bool),
    /// Writes a generated function.
    Gen(Generation),
    /// Writes how many values the location lists of a generated function have along a run of its machine code.
    SelfTest(TestPlan),
}

/// The command that the words are; `None` if they are none. `compile`, `listing`, `report` and `object` have options
/// in any order: a list of passes, as `--passes=copy,fold` or `--passes=none`, and registers that may be spilled, as
/// `--reserve=x8,x18`, and `--linked`, for functions in the linked language. `compile` has the options `--frame` and
/// `--inline` too. `object` has `--linkable`, and only beside that `--linked`, `--frame` and `--abi=lp64d`. `run` has a
/// function's name, its greatest number of steps, 0 to 1,000,000, and the options of `listing`, as well as the
/// function's arguments, as `--args=1,2`, the return values of its calls, as `--answers=3`, and beside `--linked`
/// addresses of symbols, as `--symbols=g=4096`. `strip` has `--linked` alone. `gen` has the number of a function, 0 to
/// 65,536, and its number of blocks, 1 to 512. `selftest` has such numbers and the options of `listing` but for
/// `--linked`.
pub fn parse(alloc: Global, words: &[String]) -> Result<Option<Command>, AllocError>
    ensures { IfOk result (λ o. (command : Command) →
        (o ≡ Some command) ↔ IsCommand (map string_bytes words.now) command) }
{
    match words {
        [name, rest @ ..] => named(alloc, name.as_str(), rest),
        [] => Ok(None),
    }
}

/// The command with this name and these words after it.
fn named(alloc: Global, name: &str, words: &[String]) -> Result<Option<Command>, AllocError>
    ensures { IfOk result (λ o. (command : Command) →
        (o ≡ Some command) ↔ IsCommand (name.now ∷ map string_bytes words.now) command) }
{
    if is_same(name, "compile") {
        return match compile_asked(alloc, words)? {
            Some(plan) => Ok(Some(Command::Compile(plan))),
            None => Ok(None),
        };
    }
    if is_same(name, "listing") {
        return match plan_asked(alloc, words)? {
            Some(plan) => Ok(Some(Command::Listing(plan))),
            None => Ok(None),
        };
    }
    if is_same(name, "report") {
        return match plan_asked(alloc, words)? {
            Some(plan) => Ok(Some(Command::Report(plan))),
            None => Ok(None),
        };
    }
    if is_same(name, "object") {
        return match object_asked(alloc, words)? {
            Some(asked) => Ok(Some(Command::Object(asked))),
            None => Ok(None),
        };
    }
    if is_same(name, "run") {
        return match run_asked(alloc, words)? {
            Some(found) => Ok(Some(Command::Run(found))),
            None => Ok(None),
        };
    }
    if is_same(name, "selftest") {
        return match test_asked(alloc, words)? {
            Some(test) => Ok(Some(Command::SelfTest(test))),
            None => Ok(None),
        };
    }
    if is_same(name, "strip") {
        return match strip_asked(words) {
            Some(linked) => Ok(Some(Command::Strip(linked))),
            None => Ok(None),
        };
    }
    Ok(without_options(name, words))
}

/// Whether `strip` is asked for functions in the linked language; `None` if the words are others.
fn strip_asked(words: &[String]) -> Option<bool>
    ensures { (linked : Bool) → (result ≡ Some linked) ↔ (map string_bytes words.now ≡ strip_words linked) }
{
    match words {
        [] => Some(false),
        [word] if is_same(word.as_str(), "--linked") => Some(true),
        _ => None,
    }
}

/// The command without options that has this name and these words after it.
fn without_options(name: &str, words: &[String]) -> Option<Command>
    requires { IsPlain name.now }
    ensures { (command : Command) →
        (result ≡ Some command) ↔ IsCommand (name.now ∷ map string_bytes words.now) command }
{
    match words {
        [number, blocks] if is_same(name, "gen") => {
            match asked(number.as_str(), blocks.as_str()) {
                Some(generation) => Some(Command::Gen(generation)),
                None => None,
            }
        }
        _ => None,
    }
}

/// What `compile` writes with options; `None` if a word is no option, an option repeats, or one has numbers or
/// addresses.
fn compile_asked(alloc: Global, words: &[String]) -> Result<Option<CompilePlan>, AllocError>
    ensures { IfOk result (λ o. (plan : CompilePlan) →
        (o ≡ Some plan) ↔ GivesCompile (map string_bytes words.now) plan) }
{
    match options(alloc, words)? {
        Some(given) => Ok(compile_of(alloc, given)),
        None => Ok(None),
    }
}

/// What `compile` writes with options; `None` if numbers or addresses are among them.
fn compile_of(alloc: Global, given: Options) -> Option<CompilePlan>
    ensures { (plan : CompilePlan) → (result ≡ Some plan) ↔ IsCompileOf given plan }
{
    let for_objects = has_object_words(&given);
    if for_objects {
        return None;
    }
    let Options {
        passes,
        reserve,
        arguments,
        answers,
        frame,
        inline,
        linked,
        linkable: _,
        float_abi: _,
        symbols,
    } = given;
    if arguments.is_some() || answers.is_some() || symbols.is_some() {
        return None;
    }
    Some(CompilePlan {
        plan: PassPipeline {
            passes: passes_in(passes),
            reserve: reserve_in(alloc, reserve),
            linked,
        },
        frame,
        inline,
    })
}

/// The object that options ask for; `None` if a word is no option, an option repeats, or one isn't of this object.
fn object_asked(alloc: Global, words: &[String]) -> Result<Option<ObjectPlan>, AllocError>
    ensures { IfOk result (λ o. (asked : ObjectPlan) →
        (o ≡ Some asked) ↔ GivesObject (map string_bytes words.now) asked) }
{
    match options(alloc, words)? {
        Some(given) => Ok(object_of(alloc, given)),
        None => Ok(None),
    }
}

/// The object that options ask for; `None` if others are among them.
fn object_of(alloc: Global, given: Options) -> Option<ObjectPlan>
    ensures { (asked : ObjectPlan) → (result ≡ Some asked) ↔ IsObjectPlanOf given asked }
{
    let idle = has_idle_form(&given);
    if idle {
        return None;
    }
    let form = form_in(&given);
    let Options {
        passes,
        reserve,
        arguments,
        answers,
        frame: _,
        inline,
        linked,
        linkable: _,
        float_abi: _,
        symbols,
    } = given;
    if arguments.is_some() || answers.is_some() || inline || symbols.is_some() {
        return None;
    }
    Some(ObjectPlan {
        plan: PassPipeline {
            passes: passes_in(passes),
            reserve: reserve_in(alloc, reserve),
            linked,
        },
        form,
    })
}

/// The form of an object that a linker places; `None` if none is asked for.
fn form_in(given: &Options) -> Option<LinkableForm>
    ensures { result ≡ form_in given.now }
{
    if given.linkable {
        Some(LinkableForm {
            frame: given.frame,
            float_abi: given.float_abi,
        })
    } else {
        None
    }
}

/// Whether options of an object that a linker places are given for one that isn't.
fn has_idle_form(given: &Options) -> bool
    ensures { result ≡ has_idle_form given.now }
{
    !given.linkable && (given.frame || given.float_abi || given.linked)
}

/// Whether options are given that are of objects alone.
fn has_object_words(given: &Options) -> bool
    ensures { result ≡ has_object_words given.now }
{
    given.linkable || given.float_abi
}

/// The plan of options; `None` if a word is no option, an option repeats, or one isn't of a plan.
fn plan_asked(alloc: Global, words: &[String]) -> Result<Option<PassPipeline>, AllocError>
    ensures { IfOk result (λ o. (plan : PassPipeline) → (o ≡ Some plan) ↔ GivesPlan (map string_bytes words.now) plan) }
{
    match options(alloc, words)? {
        Some(given) => Ok(plan_of(alloc, given)),
        None => Ok(None),
    }
}

/// The plan of options; `None` if others are among them.
fn plan_of(alloc: Global, given: Options) -> Option<PassPipeline>
    ensures { (plan : PassPipeline) → (result ≡ Some plan) ↔ IsPlanOf given plan }
{
    let for_objects = has_object_words(&given);
    if for_objects {
        return None;
    }
    let Options {
        passes,
        reserve,
        arguments,
        answers,
        frame,
        inline,
        linked,
        linkable: _,
        float_abi: _,
        symbols,
    } = given;
    if arguments.is_some() || answers.is_some() || frame || inline || symbols.is_some() {
        return None;
    }
    Some(PassPipeline {
        passes: passes_in(passes),
        reserve: reserve_in(alloc, reserve),
        linked,
    })
}

/// The plan of options; `None` if a word is no option, an option repeats, or one isn't of a plan, or is `--linked`.
fn plain_plan_asked(alloc: Global, words: &[String]) -> Result<Option<PassPipeline>, AllocError>
    ensures { IfOk result (λ o. (plan : PassPipeline) →
        (o ≡ Some plan) ↔ GivesPlainPlan (map string_bytes words.now) plan) }
{
    match plan_asked(alloc, words)? {
        Some(plan) => Ok(plain(plan)),
        None => Ok(None),
    }
}

/// The plan, unless functions are read in the linked language.
fn plain(plan: PassPipeline) -> Option<PassPipeline>
    ensures { (other : PassPipeline) → (result ≡ Some other) ↔ IsPlainPlan plan other }
{
    let linked = plan.linked;
    if linked { None } else { Some(plan) }
}

/// The run of these words: a function's name, a number of steps, and options; `None` if they are none.
fn run_asked(alloc: Global, words: &[String]) -> Result<Option<RunPlan>, AllocError>
    ensures { IfOk result (λ o. (run : RunPlan) → (o ≡ Some run) ↔ GivesRun (map string_bytes words.now) run) }
{
    match words {
        [name, steps, rest @ ..] => steps_asked(alloc, name.as_str(), steps.as_str(), rest),
        _ => Ok(None),
    }
}

/// The run of the function with this name, for a word that is its number of steps, and options.
fn steps_asked(
    alloc: Global,
    name: &str,
    steps: &str,
    words: &[String],
) -> Result<Option<RunPlan>, AllocError>
    ensures { IfOk result (λ o. (run : RunPlan) →
        (o ≡ Some run) ↔ GivesSteps name.now steps.now (map string_bytes words.now) run) }
{
    let Some(count) = number(steps, MAX_STEPS) else {
        return Ok(None);
    };
    let Some(given) = options(alloc, words)? else {
        return Ok(None);
    };
    let with_frame = given.frame;
    if with_frame {
        return Ok(None);
    }
    let with_inline = given.inline;
    if with_inline {
        return Ok(None);
    }
    let with_idle = has_idle_symbols(&given);
    if with_idle {
        return Ok(None);
    }
    let for_objects = has_object_words(&given);
    if for_objects {
        return Ok(None);
    }
    let name = Name::from_slice(alloc, name.as_bytes())?;
    Ok(Some(run_of(alloc, name, count as u32, given)))
}

/// Whether addresses of symbols are given for the language that isn't linked.
fn has_idle_symbols(given: &Options) -> bool
    ensures { result ≡ has_idle_symbols given.now }
{
    !given.linked && given.symbols.is_some()
}

/// The run of the function with this name, for at most `steps` steps, with options.
fn run_of(alloc: Global, name: Name, steps: u32, given: Options) -> RunPlan
    requires frame { given.frame ≡ false }
    requires inline { given.inline ≡ false }
    requires idle { has_idle_symbols given ≡ false }
    requires for_objects { has_object_words given ≡ false }
    ensures { (run : RunPlan) → (result ≡ run) ↔ IsRunPlanOf name steps given run }
{
    let Options {
        passes,
        reserve,
        arguments,
        answers,
        frame: _,
        inline: _,
        linked,
        linkable: _,
        float_abi: _,
        symbols,
    } = given;
    RunPlan {
        name,
        steps,
        plan: PassPipeline {
            passes: passes_in(passes),
            reserve: reserve_in(alloc, reserve),
            linked,
        },
        arguments: numbers_in(alloc, arguments),
        answers: numbers_in(alloc, answers),
        symbols: addresses_given(alloc, symbols),
    }
}

/// The self-test of these words: a function's number, its number of blocks, and options; `None` if they are none.
fn test_asked(alloc: Global, words: &[String]) -> Result<Option<TestPlan>, AllocError>
    ensures { IfOk result (λ o. (test : TestPlan) → (o ≡ Some test) ↔ GivesTest (map string_bytes words.now) test) }
{
    match words {
        [number, blocks, rest @ ..] => test_of(alloc, number.as_str(), blocks.as_str(), rest),
        _ => Ok(None),
    }
}

/// The self-test for two words, the function's number and its number of blocks, and options.
fn test_of(
    alloc: Global,
    number: &str,
    blocks: &str,
    words: &[String],
) -> Result<Option<TestPlan>, AllocError>
    ensures { IfOk result (λ o. (test : TestPlan) →
        (o ≡ Some test) ↔ GivesTestOf number.now blocks.now (map string_bytes words.now) test) }
{
    let Some(function) = asked(number, blocks) else {
        return Ok(None);
    };
    match plain_plan_asked(alloc, words)? {
        Some(plan) => Ok(Some(TestPlan { function, plan })),
        None => Ok(None),
    }
}

/// The passes of `--passes`: all by default.
fn passes_in(given: Option<PassList>) -> PassList
    ensures { result ≡ passes_in given }
{
    match given {
        Some(passes) => passes,
        None => PassList::standard(),
    }
}

/// The numbers of an option: none by default.
fn numbers_in(alloc: Global, given: Option<Numbers>) -> Numbers
    ensures { result ≡ numbers_in given }
{
    match given {
        Some(numbers) => numbers,
        None => Numbers::new(alloc),
    }
}

/// The addresses of `--symbols`: none by default.
fn addresses_given(alloc: Global, given: Option<SymbolAddresses>) -> SymbolAddresses
    ensures { result ≡ addresses_given given }
{
    match given {
        Some(pairs) => pairs,
        None => SymbolAddresses::new(alloc),
    }
}

/// The registers of `--reserve`: none by default.
fn reserve_in(alloc: Global, reserve: Option<Registers>) -> Registers
    ensures { result ≡ reserve_in reserve }
{
    match reserve {
        Some(registers) => registers,
        None => Registers::new(alloc),
    }
}
