//! The step in which virtual registers get physical ones.

ghost use Rattle.std.specs.Prelude.{◌<◌, ◌^◌, List, IfOk};
ghost use Rattle.mir_func.specs.declared.debug_substitution.DebugSubstitution.{DebugSubstitution};
ghost use Rattle.mir_func.specs.Sound.{AllItems, HasForm, IsSound};
ghost use Rattle.pass_trait.specs.Sizes.{item_count};
ghost use Rattle.linear_scan.specs.Allotted.{IsAllottedWithLosses};

use mir_func::func::Func;
use pass_trait::loss::Losses;
use rv64_instr::reg::Reg;
use scan_allot::blocks::allotted_blocks;
use scan_allot::choice::allocation_of;
use scan_pass::scan_allocation_crate::laws::allocation_is_coloring;
use scan_settle::mir_type_facts_crate::blocks::know_forms;
use std::alloc::{AllocError, Global};

/// Replaces virtual registers by the physical ones that they get, none of the reserve, and returns the losses. After an
/// error the function is unchanged.
pub fn allot(alloc: Global, reserve: &[Reg], f: &mut Func) -> Result<Losses, AllocError>
    requires { item_count f.old < 2 ^ 31 }
    ensures allotted { IfOk result (λ losses. (subs : List DebugSubstitution) →
        IsAllottedWithLosses reserve.now f.old subs f.new losses) }
    ensures forms { AllItems (λ i. HasForm i.kind) f.old.blocks }
    ensures sound { IsSound f.old }
{
    allocation_is_coloring();
    know_forms(f.blocks.as_slice());
    let given = allocation_of(alloc, reserve, f)?;
    let made = allotted_blocks(alloc, f, given.as_slice())?;
    f.blocks = made.blocks;
    Ok(made.losses)
}
