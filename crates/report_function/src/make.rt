//! Makes the report on machine code.

ghost use Rattle.std.specs.Prelude.{◌≡◌, ◌<◌, All, IfOk, length};
ghost use Rattle.dwarf_loclists.specs.Ranges.{Ascend};
ghost use Rattle.report_function.specs.Report.{cover_of, covers_of, report_of};

use crate::covers::covered;
use crate::report::{Cover, Covers, Report, VariableNames};
use dwarf_loclists::range::Ranges;
use emit_code::code::Code;
use pass_trait::loss::Losses;
use rv64_instr::name::Name;
use std::alloc::{AllocError, Global};

/// The report on the code of a function. `names` is the names of its variables, in the order of their location lists,
/// `losses` the losses of all passes in order.
pub fn make_report(
    alloc: Global,
    code: &Code,
    names: &VariableNames,
    lists: &[Ranges],
    losses: &Losses,
) -> Result<Report, AllocError>
    // There are as many names as lists.
    requires names { length names.now ≡ length lists.now }
    // In each list the ranges ascend.
    requires ascend { All Ascend lists.now }
    ensures { IfOk result (λ r. r ≡ report_of code.now names.now lists.now losses.now) }
{
    Ok(Report {
        name: code.framed.name.copy()?,
        words: code.words.len() as u64,
        covers: covers(alloc, code, names.as_slice(), lists)?,
        losses: losses.copy()?,
    })
}

fn covers(
    alloc: Global,
    code: &Code,
    names: &[Name],
    lists: &[Ranges],
) -> Result<Covers, AllocError>
    requires names { length names.now ≡ length lists.now }
    requires ascend { All Ascend lists.now }
    ensures { IfOk result (λ covers. covers ≡ covers_of code.now names.now lists.now) }
{
    let mut covers = Covers::new(alloc);
    for (i, name) in names.iter().enumerate() {
        covers.push(cover(code, name, &lists[i])?)?;
    }
    Ok(covers)
}

fn cover(code: &Code, name: &Name, ranges: &Ranges) -> Result<Cover, AllocError>
    requires { Ascend ranges.now }
    ensures { IfOk result (λ c. c ≡ cover_of code.now name.now ranges.now) }
{
    Ok(Cover {
        name: name.copy()?,
        words: covered(code.base, code.words.len() as u64, ranges.as_slice()),
    })
}
