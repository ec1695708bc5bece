//! A run of a function as it was read, step by step.

ghost use Rattle.std.specs.Prelude.{◌≡◌, ◌<◌, ◌+◌, ◌^◌, ◌↔◌, true, [], length};
ghost use Rattle.std.specs.Prelude.{List, Option, Some, None, IfOk, OnErr, IsTrue};
ghost use Rattle.std.specs.Option.{option_copied};
ghost use Rattle.rv64_instr.specs.declared.start.CallResult.{CallResult};
ghost use Rattle.mir_func.specs.declared.debug_substitution.DebugSubstitution.{DebugSubstitution};
ghost use Rattle.sem_mir.specs.State.{Core, Event, Reply, State, assigned};
ghost use Rattle.sem_mir.specs.Step as step;
ghost use Rattle.mir_func.specs.Graph.{Outside, program_of, fetch_in};
ghost use Rattle.mir_func.specs.Resolve.{resolve};
ghost use Rattle.sem_mir.specs.InitialState.{first_of};
ghost use Rattle.sem_interpreter.specs.StandsFor.{DoesItem, Holds, StandsFor, Starts, IsPosition, AreCounted};
ghost use Rattle.sem_interpreter.specs.Steps.{ReturnsAgain, Steps, StepsFrom, source_of};
ghost use Rattle.sem_interpreter.specs.Steps.{IsState, ChangesOnlyByGoing, GoesAlong, step_after, position_after};
ghost use Rattle.rv64_instr.specs.LocationEffects.{is_call};

use crate::assignments::{Assignments, part_of};
use crate::blocks;
use crate::machine::{InterpreterState, Outcome};
use crate::pairs::{self, Pairs};
use base_ids::function_ids::{BlockId, DebugNumber};
use indexmap::IndexMap;
use mir_func::block::Block;
use mir_func::debug_substitution::OperandPair;
use mir_func::func::Func;
use mir_func::item::ItemKind;
use mir_func::position::Pos;
use mir_func::variable::{MarkValue, VarId};
use mir_substitution::substitutions::Substitutions;
use rv64_instr::effects::is_call;
use rv64_instr::instr::Instr;
use rv64_instr::place::Place;
use rv64_instr::start::{CallResult, Start};
use std::alloc::{AllocError, Global};
use std::marker::Model;

/// The result of a step of a run.
#[derive(Clone, Copy, Debug, PartialEq, Eq)]
pub enum SourceStep {
    /// The run went on.
    Went,
    /// The run returned.
    Returned,
    /// The run stops on a frame fault: it would touch the frame's bytes, or read an unwritten register or slot.
    Faulted,
    /// The run waits for the answer to a call.
    Waits,
}

/// The state of a run of a function as it was read.
#[derive(Drop)]
pub struct SourceState {
    pos: Pos,
    machine: InterpreterState,
    /// The last value of each pair of a debug instruction number and an operand's index.
    pairs: Pairs,
    /// The last assignment to each part of a variable.
    assigned: Assignments,
    /// Probable indices of blocks, by their numbers.
    probable: blocks::Places,
}

impl Model for SourceState {
    ghost use Rattle.sem_interpreter.specs.StandsFor.{Concrete};

    ghost Value = { Concrete };

    ghost view = { λ a. record { pos = a.pos; machine = a.machine; pairs = a.pairs.entries; assigned = a.assigned } };
}

impl SourceState {
    /// The state at the start of a run of the function.
    pub fn new(alloc: Global, f: &Func, start: &Start) -> Result<SourceState, AllocError>
        ensures stands { IfOk result (λ made. (s : State)
            → Starts f.now.objects f.now.blocks start.now s → StandsFor made s) }
        ensures at { IfOk result (λ made. IsPosition f.now.blocks made.pos) }
    {
        Ok(SourceState {
            pos: Pos {
                block: first(f.blocks.as_slice()),
                item: 0,
            },
            machine: InterpreterState::new(alloc, f.objects.as_slice(), start)?,
            pairs: IndexMap::new(alloc),
            assigned: Assignments::new(alloc),
            probable: blocks::places(alloc, f.blocks.as_slice())?,
        })
    }

    /// Whether `step` can run a function: each block has fewer items than a position can count.
    pub fn can_run(f: &Func) -> bool
        ensures { IsTrue result ↔ AreCounted f.now.blocks }
    {
        are_counted(f.blocks.as_slice())
    }

    /// The position: a block's number, and the index of an item, which at a block's end is the number of its items.
    pub fn position(&self) -> Pos
        ensures { result ≡ self.now.pos }
    {
        self.pos
    }

    /// The interpreter's state represents a state of the run, whatever the replies to come and the events so far.
    pub fn stands_for_a_state(&self)
        ensures { (script : List Reply) (events : List Event) → IsState self.now script events }
    {
        self.machine.registers.hold_zero();
    }

    /// The value of a part of a variable by its last assignment. `None` if it wasn't assigned yet, if its last
    /// assignment was undef, or if a part that overlaps it was assigned later.
    pub fn value_of(&self, v: &VarId) -> Option<u64>
        ensures { (s : State) → StandsFor self.now s → result ≡ assigned v.now s.core.marks }
    {
        self.assigned.last(v)
    }

    /// Takes one step: executes the item at the position, or goes on from a block's end. An answer is ignored at any
    /// item but a call. If the run doesn't go on, nothing changes.
    pub fn step(
        &mut self,
        f: &Func,
        subs: &Substitutions,
        answer: Option<&CallResult>,
    ) -> Result<SourceStep, AllocError>
        requires counted { AreCounted f.now.blocks }
        requires at { IsPosition f.now.blocks self.old.pos }
        ensures step { IfOk result (λ r. Steps (source_of f.now.blocks subs.now)
            (option_copied answer.entry) r self.old self.new) }
        ensures stays { IfOk result (λ r. ChangesOnlyByGoing r self.old self.new) }
        ensures memory { OnErr result (self.new ≡ self.old) }
        ensures at { IsPosition f.now.blocks self.new.pos }
    {
        let blocks = f.blocks.as_slice();
        match blocks::find(&self.probable, blocks, self.pos.block) {
            Some(b) => self.step_in(&blocks[b..], subs, answer),
            None => unreachable!(),
        }
    }

    /// Takes a step in the first of the blocks.
    fn step_in(
        &mut self,
        blocks: &[Block],
        subs: &Substitutions,
        answer: Option<&CallResult>,
    ) -> Result<SourceStep, AllocError>
        requires some { 0 < length blocks.now }
        requires counted { AreCounted blocks.now }
        requires at { fetch_in blocks.now self.old.pos.item ≡ Outside → ⊥ }
        ensures step { IfOk result (λ r. StepsFrom (fetch_in blocks.now self.old.pos.item) subs.now
            (option_copied answer.entry) r self.old self.new) }
        ensures stays { IfOk result (λ r. ChangesOnlyByGoing r self.old self.new) }
        ensures edge { IfOk result (λ r.
            GoesAlong (fetch_in blocks.now self.old.pos.item) r self.old.pos self.new.pos) }
        ensures memory { OnErr result (self.new ≡ self.old) }
    {
        let items = blocks[0].items.as_slice();
        let i = self.pos.item as usize;
        if i < items.len() {
            let outcome = self.do_item(&items[i].kind, subs, answer)?;
            Ok(self.go(outcome))
        } else {
            self.pos = Pos {
                block: blocks[1].id,
                item: 0,
            };
            Ok(SourceStep::Went)
        }
    }

    /// Moves the position by an item's outcome.
    fn go(&mut self, outcome: Outcome) -> SourceStep
        requires { self.old.pos.item + 1 < 2 ^ 32 }
        ensures step { result ≡ step_after outcome }
        ensures after { self.new ≡ record self.old { pos = position_after outcome self.old.pos } }
    {
        match outcome {
            Outcome::Falls => {
                self.pos.item += 1;
                SourceStep::Went
            }
            Outcome::Goes(block) => {
                self.pos = Pos { block, item: 0 };
                SourceStep::Went
            }
            Outcome::Returns => SourceStep::Returned,
            Outcome::Faults => SourceStep::Faulted,
            Outcome::Waits => SourceStep::Waits,
        }
    }

    fn do_item(
        &mut self,
        kind: &ItemKind,
        subs: &Substitutions,
        answer: Option<&CallResult>,
    ) -> Result<Outcome, AllocError>
        ensures ok { IfOk result (λ o. DoesItem subs.now kind.now (option_copied answer.entry) o self.old self.new) }
        ensures err { OnErr result (self.new ≡ self.old) }
    {
        match kind {
            ItemKind::Code(i, k) => self.do_code(i, *k, answer),
            ItemKind::Mark(v, m) => self.mark(v, *m, subs),
            ItemKind::Phi(place, k) => self.phi(*place, *k),
        }
    }

    fn do_code(
        &mut self,
        i: &Instr,
        k: Option<DebugNumber>,
        answer: Option<&CallResult>,
    ) -> Result<Outcome, AllocError>
        ensures ok { IfOk result (λ o. (subs : List DebugSubstitution)
            → DoesItem subs (ItemKind.Code i.now k) (option_copied answer.entry) o self.old self.new) }
        ensures err { OnErr result (self.new ≡ self.old) }
    {
        match k {
            None => self.do_plain(i, answer),
            Some(number) => self.do_numbered(i, number, answer),
        }
    }

    /// Executes code without a number.
    fn do_plain(&mut self, i: &Instr, answer: Option<&CallResult>) -> Result<Outcome, AllocError>
        ensures ok { IfOk result (λ o. (subs : List DebugSubstitution)
            → DoesItem subs (ItemKind.Code i.now None) (option_copied answer.entry) o self.old self.new) }
        ensures err { OnErr result (self.new ≡ self.old) }
    {
        let outcome = self.machine.act(i, answer)?;
        Ok(outcome)
    }

    /// Executes code with a number. The room for its pairs comes first, so that nothing changes if memory runs out.
    fn do_numbered(
        &mut self,
        i: &Instr,
        k: DebugNumber,
        answer: Option<&CallResult>,
    ) -> Result<Outcome, AllocError>
        ensures ok { IfOk result (λ o. (subs : List DebugSubstitution)
            → DoesItem subs (ItemKind.Code i.now (Some k)) (option_copied answer.entry) o self.old self.new) }
        ensures err { OnErr result (self.new ≡ self.old) }
    {
        let operands = i.operands.as_slice();
        let call = is_call(i);
        self.pairs.reserve(operands.len())?;
        match self.machine.act(i, answer)? {
            Outcome::Falls => {
                pairs::number(&mut self.pairs, &self.machine.registers, call, k, operands)?;
                Ok(Outcome::Falls)
            }
            Outcome::Goes(n) => {
                pairs::number(&mut self.pairs, &self.machine.registers, call, k, operands)?;
                Ok(Outcome::Goes(n))
            }
            Outcome::Returns => Ok(Outcome::Returns),
            Outcome::Faults => Ok(Outcome::Faults),
            Outcome::Waits => Ok(Outcome::Waits),
        }
    }

    /// Executes a mark.
    fn mark(&mut self, v: &VarId, m: MarkValue, subs: &Substitutions) -> Result<Outcome, AllocError>
        ensures ok { IfOk result (λ o. (answer : Option CallResult)
            → DoesItem subs.now (ItemKind.Mark v.now m) answer o self.old self.new) }
        ensures err { OnErr result (self.new ≡ self.old) }
    {
        let value = part_of(v, self.mark_value(m, subs));
        self.assigned.assign(v, value)?;
        Ok(Outcome::Falls)
    }

    /// The value that a mark assigns.
    fn mark_value(&self, m: MarkValue, subs: &Substitutions) -> Option<u64>
        ensures { (s : Core) → Holds self.now s
            → result ≡ step.mark_value (program_of true [] (resolve subs.now)) m s }
    {
        match m {
            MarkValue::Nothing => None,
            MarkValue::Constant(c) => Some(c.cast_unsigned()),
            MarkValue::At(r) => self.machine.registers.read(r),
            MarkValue::Pair(pair) => match subs.resolve(pair) {
                Some(pair) => self.pair(pair),
                None => None,
            },
        }
    }

    /// The last value of a pair.
    fn pair(&self, pair: OperandPair) -> Option<u64>
        ensures { (s : Core) → Holds self.now s → result ≡ s.pairs pair.number pair.operand }
    {
        match self
            .pairs
            .get(&(pair.number.number(), pair.operand.number() as usize))
        {
            Some(value) => *value,
            None => None,
        }
    }

    /// Executes a phi.
    fn phi(&mut self, place: Option<Place>, k: DebugNumber) -> Result<Outcome, AllocError>
        ensures ok { IfOk result (λ o. (subs : List DebugSubstitution) (answer : Option CallResult)
            → DoesItem subs (ItemKind.Phi place k) answer o self.old self.new) }
        ensures err { OnErr result (self.new ≡ self.old) }
    {
        let value = self.place_value(place);
        self.pairs.insert((k.number(), 0), value)?;
        Ok(Outcome::Falls)
    }

    /// The value that a phi of a location reads: none for x2.
    fn place_value(&self, place: Option<Place>) -> Option<u64>
        ensures { (s : Core) → Holds self.now s → result ≡ step.place_value place s }
    {
        match place {
            Some(p) => self.content(p),
            None => None,
        }
    }

    fn content(&self, place: Place) -> Option<u64>
        ensures { (s : Core) → Holds self.now s → result ≡ step.place_value (Some place) s }
    {
        match place {
            Place::Register(r) => {
                if r.number() == 2 {
                    None
                } else {
                    self.machine.registers.read(r)
                }
            }
            Place::Slot(n) => self.machine.slots.read(n),
            Place::Const(c) => Some(c.cast_unsigned()),
        }
    }
}

/// Whether each block has fewer items than a position can count.
fn are_counted(blocks: &[Block]) -> bool
    ensures { IsTrue result ↔ AreCounted blocks.now }
{
    for b in blocks {
        if b.items.len() > u32::MAX as usize {
            return false;
        }
    }
    true
}

/// After a step that returned, which changes nothing, each later step returns too.
pub fn returns_again()
    ensures { ReturnsAgain }
{}

/// The number of the first block.
fn first(blocks: &[Block]) -> BlockId
    requires { 0 < length blocks.now }
    ensures { result ≡ first_of blocks.now }
{
    blocks[0].id
}
