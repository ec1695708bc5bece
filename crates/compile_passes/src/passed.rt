//! A function that was read, after linear scan and passes.

ghost use Rattle.std.specs.Prelude.{◌≡◌, ◌+◌, ◌*◌, ◌<◌, ◌≤◌, ◌^◌, false, true, All, IfOk, OnOk, IsErrOf, length};
ghost use Rattle.compile_passes.specs.Passed.{GetsRegisters, LeavesVirtual, IsMadeLosing, IsCompilable};
ghost use Rattle.compile_passes.specs.Passed.{MAX_PASSED, passed_of};
ghost use Rattle.compile_passes.specs.steps.Scan.{IsScanOf};
ghost use Rattle.mir_func.specs.Limits.{MAX_SLOTS};
ghost use Rattle.mir_func.specs.Sound.{items_of};
ghost use Rattle.pass_list.specs.Names.{AreDistinct};
ghost use Rattle.pass_trait.specs.Change.{change};
ghost use Rattle.pass_trait.specs.Simulation.{PreservesSimulation};
ghost use Rattle.pass_trait.specs.Sizes.{IsPhysical, KeepsSizes, call_count, greatest, greatest_number, most_numbers};
ghost use Rattle.pass_trait.specs.Steps.{KeepsSteps};
ghost use Rattle.listing_proof.specs.read_body.Limits.{MAX_ITEMS};
ghost use Rattle.listing_proof.specs.read_proof.Read.{IsReadFunction, EntryIsLimited};
ghost use Rattle.linear_scan.specs.Scanned.{scan_steps};

use crate::error::PassesError;
use linear_scan::frame_lowering_crate::physical::is_physical;
use linear_scan::mir_type_facts_crate::typed::{blocks_are_typed, entries_are_typed};
use linear_scan::pass_losses_crate::told::told;
use linear_scan::scan::ScanPass;
use listing_proof::read_program_crate::closing::Parsed;
use mir_func::func::Func;
use mir_substitution::substitutions::Substitutions;
use pass_list::kind::PassKind;
use pass_manager::exposed::run_exposed;
use pass_trait::loss::Losses;
use pass_trait::pass::Pass;
use read_metadata::metadata::Metadata;
use rv64_instr::reg::{Reg, Registers};
use std::alloc::{AllocError, Global};

/// The result of linear scan, or of linear scan and passes, on a source.
#[derive(Drop)]
pub struct Passed {
    /// The function.
    pub function: Func,
    /// Its debug value substitutions, the source's included.
    pub substitutions: Substitutions,
    /// What was lost, in the order of linear scan and the passes, and in the order of each, without duplicates.
    pub losses: Losses,
}

/// Runs linear scan and then passes, each at most once, on a function that was read with metadata. `reserve` is the
/// registers that may be spilled. The error is `NoRegister` exactly if linear scan leaves a virtual register.
pub fn after_passes(
    alloc: Global,
    meta: &Metadata,
    source: &Parsed,
    passes: &[PassKind],
    reserve: &[Reg],
) -> Result<Passed, PassesError>
    requires read { IsReadFunction meta.now source.now.func }
    requires substitutions { All EntryIsLimited source.now.subs }
    requires distinct { AreDistinct passes.now }
    ensures compilable { IfOk result (λ p.
        IsCompilable meta.now (passed_of source.now p.function p.substitutions)) }
    ensures made { IfOk result (λ p.
        IsMadeLosing reserve.now passes.now (passed_of source.now p.function p.substitutions) p.losses) }
    ensures few { IfOk result (λ p. length (items_of p.function.blocks) ≤ MAX_PASSED) }
    ensures calls { IfOk result (λ p. call_count p.function ≤ MAX_ITEMS) }
    ensures registers { IfOk result (λ _. GetsRegisters reserve.now source.now) }
    ensures no_register { IsErrOf result PassesError.NoRegister → LeavesVirtual reserve.now source.now }
{
    let allocated = with_registers(alloc, meta, source, reserve)?;
    Ok(passed_behind(alloc, meta, source, allocated, passes, reserve)?)
}

/// Tests whether linear scan leaves no virtual register in a function that was read with metadata. The error is
/// `NoRegister` exactly if it leaves one.
pub fn get_registers(
    alloc: Global,
    meta: &Metadata,
    source: &Parsed,
    reserve: &[Reg],
) -> Result<(), PassesError>
    requires read { IsReadFunction meta.now source.now.func }
    requires substitutions { All EntryIsLimited source.now.subs }
    ensures registers { IfOk result (λ _. GetsRegisters reserve.now source.now) }
    ensures no_register { IsErrOf result PassesError.NoRegister → LeavesVirtual reserve.now source.now }
{
    let _allocated = with_registers(alloc, meta, source, reserve)?;
    Ok(())
}

/// Runs linear scan on a function that was read with metadata. The error is `NoRegister` exactly if it leaves a virtual
/// register.
#[tactic(auto, using(crate::proofs::Scan::leaves_virtual, crate::proofs::Scan::gets_registers))]
fn with_registers(
    alloc: Global,
    meta: &Metadata,
    source: &Parsed,
    reserve: &[Reg],
) -> Result<Passed, PassesError>
    requires read { IsReadFunction meta.now source.now.func }
    requires substitutions { All EntryIsLimited source.now.subs }
    ensures scan { IfOk result (λ p. IsScanOf reserve.now
        (change source.now.func source.now.subs p.function p.substitutions) p.losses) }
    ensures physical { IfOk result (λ p. IsPhysical p.function) }
    ensures registers { IfOk result (λ _. GetsRegisters reserve.now source.now) }
    ensures no_register { IsErrOf result PassesError.NoRegister → LeavesVirtual reserve.now source.now }
{
    let allocated = scanned(alloc, meta, source, reserve)?;
    if is_physical(&allocated.function) {
        Ok(allocated)
    } else {
        Err(PassesError::NoRegister)
    }
}

/// Runs linear scan on a function that was read with metadata. It gives no register of the reserve.
fn scanned(
    alloc: Global,
    _meta: &Metadata,
    source: &Parsed,
    reserve: &[Reg],
) -> Result<Passed, AllocError>
    requires read { IsReadFunction _meta.now source.now.func }
    requires substitutions { All EntryIsLimited source.now.subs }
    ensures { IfOk result (λ p. IsScanOf reserve.now
        (change source.now.func source.now.subs p.function p.substitutions) p.losses) }
{
    let mut function = source.func.copy()?;
    let mut substitutions = source.subs.copy()?;
    let given = Registers::from_slice(alloc, reserve)?;
    let lost = run_scan(alloc, given, &mut function, &mut substitutions)?;
    let losses = told(lost);
    Ok(Passed {
        function,
        substitutions,
        losses,
    })
}

/// Runs linear scan, and returns its losses in the order in which its steps have them. After an error the function and
/// its substitutions may only be dropped.
fn run_scan(
    alloc: Global,
    reserve: Registers,
    f: &mut Func,
    subs: &mut Substitutions,
) -> Result<Losses, AllocError>
    requires numbers { greatest_number f.old subs.old + most_numbers 4 1 f.old < 2 ^ 31 }
    requires slots { greatest f.old.slots + MAX_SLOTS * 1 < 2 ^ 31 }
    ensures follows { OnOk result (PreservesSimulation false true (change f.old subs.old f.new subs.new)) }
    ensures steps { IfOk result (KeepsSteps (scan_steps reserve) (change f.old subs.old f.new subs.new)) }
    ensures sizes { OnOk result (KeepsSizes 4 1 (change f.old subs.old f.new subs.new)) }
{
    ScanPass { reserve }.run(alloc, f, subs)
}

/// Runs passes on what linear scan made of a function that was read.
fn passed_behind(
    alloc: Global,
    _meta: &Metadata,
    source: &Parsed,
    allocated: Passed,
    passes: &[PassKind],
    reserve: &[Reg],
) -> Result<Passed, AllocError>
    requires read { IsReadFunction _meta.now source.now.func }
    requires substitutions { All EntryIsLimited source.now.subs }
    requires distinct { AreDistinct passes.now }
    requires scanned { IsScanOf reserve.now
        (change source.now.func source.now.subs allocated.function allocated.substitutions) allocated.losses }
    requires physical { IsPhysical allocated.function }
    ensures compilable { IfOk result (λ p.
        IsCompilable _meta.now (passed_of source.now p.function p.substitutions)) }
    ensures made { IfOk result (λ p.
        IsMadeLosing reserve.now passes.now (passed_of source.now p.function p.substitutions) p.losses) }
    ensures few { IfOk result (λ p. length (items_of p.function.blocks) ≤ MAX_PASSED) }
    ensures calls { IfOk result (λ p. call_count p.function ≤ MAX_ITEMS) }
{
    let Passed {
        mut function,
        mut substitutions,
        mut losses,
    } = allocated;
    let later = run_exposed(
        alloc,
        source.exposure,
        passes,
        reserve,
        &mut function,
        &mut substitutions,
    )?;
    losses.extend_from_slice(later.as_slice())?;
    blocks_are_typed(function.blocks.as_slice());
    entries_are_typed(substitutions.entries());
    Ok(Passed {
        function,
        substitutions,
        losses,
    })
}
