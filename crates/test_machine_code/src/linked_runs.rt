//! Code and runs of the functions of rows: on the machine by the simulator, and of the function itself by the
//! interpreter, with the same addresses of symbols and the same answers to calls.

ghost use Rattle.std.specs.Prelude.{◌+◌, ◌*◌, ◌<◌, ◌^◌, [], IsTrue};
ghost use Rattle.mir_func.specs.Limits.{MAX_SLOTS};
ghost use Rattle.pass_trait.specs.Sizes.{greatest, greatest_number, most_numbers};
ghost use Rattle.sem_interpreter.specs.StandsFor.{AreCounted, IsPosition};

use crate::linked_functions::{VARIABLE, function, global, position, variable};
use crate::linked_gone::{AMIDST, LAST};
use crate::linked_halves::HALVES;
use crate::linked_rows::{End, Home, Row, Source, Step};
use crate::linked_stack::STACK;
use crate::linked_tails::TAILS;
use base_ids::function_ids::SlotId;
use compile_function::compiled_function::{CompiledFunction, compile_function};
use copyprop_pass::copies::CopyPass;
use dwarf_loclists::range::{Location, Range, Ranges};
use emit_code::code::Code;
use mir_func::block::Block;
use mir_func::func::Func;
use mir_func::item::{Item, ItemKind};
use mir_func::position::Origin;
use mir_printer::item::push_item;
use mir_printer::text::{Text, push_str};
use mir_substitution::substitutions::Substitutions;
use pass_salvage::fresh::greatest_in_blocks;
use pass_trait::loss::Losses;
use pass_trait::pass::Pass;
use rv64_instr::decoded::{Callee, Decoded, Way};
use rv64_instr::instr::Instr;
use rv64_instr::operand::Operand;
use rv64_instr::place::Place;
use rv64_instr::reg::physical;
use rv64_instr::start::{CallEvent, CallResult, CallTarget, Cells, Start};
use rv64_instr::symbol::{Symbol, SymbolAddresses};
use sem_interpreter::state::{SourceState, SourceStep};
use sim_machine::answers::CallAnswers;
use sim_machine::ending::{Stepped, Stop};
use sim_machine::machine::MachineSimulator;
use sim_start::start::start_with;
use std::alloc::{AllocError, Global};
use std::test::Fail;

/// The bytes of the global, of the constant, and of an argument on the stack.
const CELLS: &[(u64, u8)] = &[
    (6139, 42),
    (6140, 1),
    (36864, 0xf0),
    (36865, 0xde),
    (36866, 0xbc),
    (36867, 0x9a),
    (36868, 0x78),
    (36869, 0x56),
    (36870, 0x34),
    (36871, 0x12),
    (1_048_584, 77),
];

/// Answers a call in x10 with its callee's address, or with its number where the callee has a name, and in x11 with the
/// last value that it is passed.
#[derive(Drop)]
struct Callees;

impl CallAnswers for Callees {
    ghost gives = { λ _ _ _. Unit {0} };

    ghost spares = { λ _ _ _. Unit {0} };

    fn answer(&self, call: &CallEvent) -> CallResult {
        CallResult {
            regs: registers(called(call), passed(call)),
            writes: [None; 8],
        }
    }
}

/// The address of a call's callee, or the call's number where the callee has a name.
fn called(call: &CallEvent) -> u64 {
    match &call.target {
        CallTarget::Function(_) => call.number,
        CallTarget::Address(address) => *address,
    }
}

/// The last value that a call is passed.
fn passed(call: &CallEvent) -> u64 {
    match call.args.as_slice().last() {
        Some(value) => *value,
        None => 2000,
    }
}

/// What an answer gives: these in x10 and x11, and 2000 in the other registers.
fn registers(x10: u64, x11: u64) -> [u64; 16] {
    let mut regs = [2000; 16];
    regs[4] = x10;
    regs[5] = x11;
    regs
}

fn symbols(alloc: Global) -> Result<SymbolAddresses, Fail> {
    let mut symbols = SymbolAddresses::new(alloc);
    symbols.push((Symbol::Constant(0), 36864))?;
    symbols.push((global(alloc).ok_or("a symbol")?, 6139))?;
    Ok(symbols)
}

/// The start of a run with arguments.
fn start(alloc: Global, arguments: &[u64]) -> Result<Start, Fail> {
    let symbols = symbols(alloc)?;
    let mut start = start_with(alloc, symbols, arguments);
    start.memory = Cells::from_slice(alloc, CELLS)?;
    Ok(start)
}

/// Whether a function has one short block, no slot, and small numbers. Then the pass has room.
fn is_small(f: &Func) -> bool
    ensures numbers { IsTrue result → greatest_number f.now [] + most_numbers 1 1 f.now < 2 ^ 31 }
    ensures slots { IsTrue result → greatest f.now.slots + MAX_SLOTS * 1 < 2 ^ 31 }
{
    let few = match f.blocks.as_slice() {
        [b] => b.items.as_slice().len() < 1_000,
        _ => false,
    };
    let none = matches!(f.slots.as_slice(), []);
    few && none && greatest_in_blocks(f.blocks.as_slice()) < 1_000
}

/// Runs the pass `copy` on a function without substitutions.
fn take_copies(alloc: Global, f: &mut Func) -> Result<Substitutions, Fail> {
    if !is_small(f) {
        return Err(Fail::from("a large function"));
    }
    let mut subs = Substitutions::new(alloc);
    CopyPass.run(alloc, f, &mut subs)?;
    Ok(subs)
}

/// What is compiled of a function behind the pass `copy`.
fn compiled_without_copies(
    alloc: Global,
    source: &Func,
    f: &mut Func,
) -> Result<CompiledFunction, Fail> {
    let subs = take_copies(alloc, f)?;
    let losses = Losses::new(alloc);
    Ok(compile_function(alloc, source, &*f, &subs, losses, 0)?)
}

/// What is compiled of a function.
fn compiled_of(alloc: Global, source: &Func) -> Result<CompiledFunction, Fail> {
    let subs = Substitutions::new(alloc);
    let losses = Losses::new(alloc);
    Ok(compile_function(alloc, source, source, &subs, losses, 0)?)
}

/// What is compiled of a row.
fn compiled(alloc: Global, row: &Row, source: &Func) -> Result<CompiledFunction, Fail> {
    if row.copies {
        let mut f = function(alloc, row, &[]).ok_or("a function")?;
        compiled_without_copies(alloc, source, &mut f)
    } else {
        compiled_of(alloc, source)
    }
}

fn location(home: &Home) -> Option<Location> {
    match home {
        Home::In(n) => Some(Location::Whole(Place::Register(physical(*n)?))),
        Home::Above(n) => Some(Location::Whole(Place::Slot(SlotId(*n)))),
    }
}

/// Whether a range is this one.
fn is_range(range: &Range, wanted: &(u64, u64, Home)) -> Option<bool> {
    let (lo, hi, home) = wanted;
    let same = range.location.equals(&location(home)?);
    Some(range.lo == *lo && range.hi == *hi && same)
}

/// Whether the ranges of a list are these.
fn are_ranges(list: &Ranges, wanted: &[(u64, u64, Home)]) -> bool {
    if list.len() != wanted.len() {
        return false;
    }
    for (range, wanted) in list.as_slice().iter().zip(wanted) {
        if is_range(range, wanted) != Some(true) {
            return false;
        }
    }
    true
}

/// Whether the words and the location list are a row's. Without a variable there is no list.
fn is_compiled(found: &CompiledFunction, row: &Row) -> bool {
    let listed = match found.lists.as_slice().first() {
        Some(list) => are_ranges(list, row.ranges),
        None => row.ranges.is_empty(),
    };
    listed && found.code.words.as_slice() == row.words
}

/// Whether a call's first operand is this name.
fn is_named(i: &Instr, text: &str) -> bool {
    match i.operands.as_slice().first() {
        Some(Operand::Symbol(name)) => name.as_slice() == text.as_bytes(),
        _ => false,
    }
}

/// The way on which a run ends so.
fn way(end: &End) -> Option<Way> {
    match end {
        End::Returned => Some(Way::Back),
        End::Tailed(_) => Some(Way::Tail(Callee::Named)),
        End::TailedBy(n) => Some(Way::Tail(Callee::Held(physical(*n)?))),
        End::Gone(_) => Some(Way::Never(Callee::Named)),
        End::GoneBy(n) => Some(Way::Never(Callee::Held(physical(*n)?))),
    }
}

/// Whether a run that stops at an instruction ends so.
fn is_end(i: &Instr, end: &End) -> Option<bool> {
    let ends = i.decoded() == Decoded::Returns(way(end)?);
    match end {
        End::Tailed(text) | End::Gone(text) => Some(ends && is_named(i, text)),
        End::Returned | End::TailedBy(_) | End::GoneBy(_) => Some(ends),
    }
}

/// Whether a run that stops at an item ends so.
fn ends(f: &Func, block: u32, item: u32, end: &End) -> Option<bool> {
    let block = f.blocks.as_slice().get(block as usize)?;
    match &block.items.as_slice().get(item as usize)?.kind {
        ItemKind::Code(i, _) => is_end(i, end),
        ItemKind::Mark(_, _) | ItemKind::Phi(_, _) => None,
    }
}

/// The content of a register.
fn register(machine: &MachineSimulator<Callees>, n: u32) -> Option<u64> {
    Some(machine.register(physical(n)?))
}

/// What the variable's home holds.
fn content(machine: &MachineSimulator<Callees>, home: &Home) -> Option<u64> {
    match home {
        Home::In(n) => register(machine, *n),
        Home::Above(offset) => {
            let address = register(machine, 2)?.wrapping_add(u64::from(*offset));
            Some(machine.hart().memory.spelled(address, 8))
        }
    }
}

/// Whether the variable is nowhere where the machine stands, or has its value where it is.
fn has_value(machine: &MachineSimulator<Callees>, row: &Row) -> bool {
    let at = machine.counter();
    for (lo, hi, home) in row.ranges {
        if *lo <= at && at < *hi {
            return content(machine, home) == Some(row.value);
        }
    }
    true
}

fn origin(source: &Source) -> Origin {
    match source {
        Source::Item(block, item) => Origin::Kept(position(*block, *item)),
        Source::Before(block, item) => Origin::Before(position(*block, *item)),
    }
}

/// Whether the machine stands at a step's address and origin, and shows the variable's value.
fn stands(machine: &MachineSimulator<Callees>, row: &Row, step: &Step) -> bool {
    let (address, source) = step;
    match machine.entry() {
        Some(entry) => {
            machine.counter() == *address
                && entry.origin == origin(source)
                && has_value(machine, row)
        }
        None => false,
    }
}

/// Whether registers hold these.
fn hold(machine: &MachineSimulator<Callees>, held: &[(u32, u64)]) -> bool {
    for (n, wanted) in held {
        if register(machine, *n) != Some(*wanted) {
            return false;
        }
    }
    true
}

/// What x1, x2 and x8 hold where a run returns or leaves by a call in tail position: what they held at entry.
const GIVEN_BACK: &[(u32, u64)] = &[(1, 4_294_967_296), (2, 1_048_576), (8, 1008)];

/// What x2 holds where a call doesn't return: the frame stands.
const LEFT: &[(u32, u64)] = &[(2, 1_048_560)];

/// Whether the registers of a frame hold what they must where a run ends so.
fn keeps(machine: &MachineSimulator<Callees>, end: &End) -> bool {
    match end {
        End::Returned | End::Tailed(_) | End::TailedBy(_) => hold(machine, GIVEN_BACK),
        End::Gone(_) | End::GoneBy(_) => hold(machine, LEFT),
    }
}

/// Whether the next step ends the run so.
fn ends_on(machine: &mut MachineSimulator<Callees>, end: &End) -> Result<bool, AllocError> {
    let stepped = machine.step()?;
    match way(end) {
        Some(way) => Ok(stepped == Stepped::Stopped(Stop::Ended(way))),
        None => Ok(false),
    }
}

/// Whether the next step goes on.
fn went(machine: &mut MachineSimulator<Callees>) -> bool {
    matches!(machine.step(), Ok(Stepped::Went))
}

/// Whether a run makes a row's steps and ends as it says.
fn goes(machine: &mut MachineSimulator<Callees>, row: &Row) -> Result<bool, AllocError> {
    let Some((last, front)) = row.steps.split_last() else {
        return Ok(false);
    };
    for step in front {
        if !stands(machine, row, step) || !went(machine) {
            return Ok(false);
        }
    }
    Ok(
        stands(machine, row, last)
            && ends_on(machine, &row.end)?
            && hold(machine, row.held)
            && keeps(machine, &row.end),
    )
}

/// Whether the last step's item ends a run of a function as a row says.
fn has_end(f: &Func, row: &Row) -> Option<bool> {
    match row.steps.last()? {
        (_, Source::Item(block, item)) => ends(f, *block, *item, &row.end),
        _ => None,
    }
}

fn push_items(text: &mut Text, items: &[Item]) -> Result<(), AllocError> {
    for item in items {
        push_item(text, item)?;
        push_str(text, "\n")?;
    }
    Ok(())
}

fn push_blocks(text: &mut Text, blocks: &[Block]) -> Result<(), AllocError> {
    for block in blocks {
        push_items(text, block.items.as_slice())?;
    }
    Ok(())
}

/// Whether the items of a row's function are printed as the row says.
fn is_printed(alloc: Global, f: &Func, row: &Row) -> Result<bool, AllocError> {
    let mut text = Text::new(alloc);
    push_blocks(&mut text, f.blocks.as_slice())?;
    Ok(text.as_slice() == row.text.as_bytes())
}

/// The machine at the start of a code.
fn machine<'a>(
    alloc: Global,
    code: &'a Code,
    arguments: &[u64],
) -> Result<MachineSimulator<'a, Callees>, Fail> {
    let start = start(alloc, arguments)?;
    Ok(MachineSimulator::new(alloc, code, &start, Callees)?)
}

/// Whether the machine runs a code as a row says.
fn runs(alloc: Global, code: &Code, row: &Row) -> Result<bool, Fail> {
    let mut machine = machine(alloc, code, row.arguments)?;
    Ok(goes(&mut machine, row)?)
}

/// Whether the code of a row's function is and runs as the row says.
fn runs_code(alloc: Global, row: &Row, source: &Func) -> Result<bool, Fail> {
    let found = compiled(alloc, row, source)?;
    if is_compiled(&found, row) {
        runs(alloc, &found.code, row)
    } else {
        Ok(false)
    }
}

/// Whether a row's function is printed, and its code is and runs, as the row says.
fn runs_compiled(alloc: Global, row: &Row) -> Result<bool, Fail> {
    let f = function(alloc, row, &[]).ok_or("a function")?;
    if !row.text.is_empty() && !is_printed(alloc, &f, row)? {
        return Ok(false);
    }
    if has_end(&f, row) != Some(true) {
        return Ok(false);
    }
    runs_code(alloc, row, &f)
}

/// Whether a run of a function comes to its end within twenty steps, where calls get this answer.
fn comes_to_end(
    state: &mut SourceState,
    f: &Func,
    answer: &CallResult,
    subs: &Substitutions,
) -> Result<bool, AllocError>
    requires counted { AreCounted f.now.blocks }
    requires at { IsPosition f.now.blocks state.old.pos }
{
    for _ in 0..20 {
        match state.step(f, subs, Some(answer))? {
            SourceStep::Went => {}
            SourceStep::Returned => return Ok(true),
            SourceStep::Faulted | SourceStep::Waits => return Ok(false),
        }
    }
    Ok(false)
}

/// Whether the variable has a row's value, or none without a variable.
fn has_last_value(state: &SourceState, row: &Row) -> bool {
    let v = variable(VARIABLE);
    match state.value_of(&v) {
        Some(value) => !row.ranges.is_empty() && value == row.value,
        None => row.ranges.is_empty(),
    }
}

/// Whether a watched register holds a number.
fn sees(state: &SourceState, n: u32, wanted: u64) -> bool {
    let v = variable(n.saturating_add(100));
    state.value_of(&v) == Some(wanted)
}

/// Whether watched registers hold these.
fn sees_all(state: &SourceState, held: &[(u32, u64)]) -> bool {
    for (n, wanted) in held {
        if !sees(state, *n, *wanted) {
            return false;
        }
    }
    true
}

/// Whether a run stands where a row ends, and shows what the row says.
fn is_ended(state: &SourceState, f: &Func, row: &Row) -> bool {
    let at = state.position();
    ends(f, at.block.number(), at.item, &row.end) == Some(true)
        && sees_all(state, row.held)
        && has_last_value(state, row)
}

/// What every call of a row gives.
fn answer(row: &Row) -> CallResult {
    let (x10, x11) = row.answer;
    CallResult {
        regs: registers(x10, x11),
        writes: [None; 8],
    }
}

/// Whether the interpreter runs a row's function to the same end.
fn runs_to_end(alloc: Global, f: &Func, row: &Row) -> Result<bool, Fail> {
    if !SourceState::can_run(f) {
        return Ok(false);
    }
    let start = start(alloc, row.arguments)?;
    let mut state = SourceState::new(alloc, f, &start)?;
    let subs = Substitutions::new(alloc);
    let ended = comes_to_end(&mut state, f, &answer(row), &subs)?;
    Ok(ended && is_ended(&state, f, row))
}

/// The same, with marks of the registers that the row looks at.
fn runs_source(alloc: Global, row: &Row) -> Result<bool, Fail> {
    let f = function(alloc, row, row.held).ok_or("a function")?;
    runs_to_end(alloc, &f, row)
}

/// The number of the first row of which the machine shows anything else.
fn other_compiled(alloc: Global, rows: &[Row]) -> Result<Option<usize>, Fail> {
    for (n, row) in rows.iter().enumerate() {
        if !runs_compiled(alloc, row)? {
            return Ok(Some(n));
        }
    }
    Ok(None)
}

/// The number of the first row of which the interpreter shows anything else.
fn other_source(alloc: Global, rows: &[Row]) -> Result<Option<usize>, Fail> {
    for (n, row) in rows.iter().enumerate() {
        if !runs_source(alloc, row)? {
            return Ok(Some(n));
        }
    }
    Ok(None)
}

#[test]
fn halves(rt: HostRuntime) -> Result<(), Fail> {
    assert_eq!(rt; other_compiled(rt.alloc(), HALVES)?, None);
    assert_eq!(rt; other_source(rt.alloc(), HALVES)?, None);
    Ok(())
}

#[test]
fn calls_by_registers_and_in_tail_position(rt: HostRuntime) -> Result<(), Fail> {
    assert_eq!(rt; other_compiled(rt.alloc(), TAILS)?, None);
    assert_eq!(rt; other_source(rt.alloc(), TAILS)?, None);
    Ok(())
}

#[test]
fn calls_that_do_not_return(rt: HostRuntime) -> Result<(), Fail> {
    assert_eq!(rt; other_compiled(rt.alloc(), LAST)?, None);
    assert_eq!(rt; other_source(rt.alloc(), LAST)?, None);
    assert_eq!(rt; other_compiled(rt.alloc(), AMIDST)?, None);
    assert_eq!(rt; other_source(rt.alloc(), AMIDST)?, None);
    Ok(())
}

#[test]
fn fixed_objects(rt: HostRuntime) -> Result<(), Fail> {
    assert_eq!(rt; other_compiled(rt.alloc(), STACK)?, None);
    assert_eq!(rt; other_source(rt.alloc(), STACK)?, None);
    Ok(())
}
