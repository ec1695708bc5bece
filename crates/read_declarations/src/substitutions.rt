//! The entries of `debugValueSubstitutions`.

ghost use Rattle.std.specs.Prelude.{◌≡◌, IfOk, OnOk};
ghost use Rattle.read_declarations.specs.Substitutions.{pair_of, substitution_of, substituted, substitutions_of};

use crate::entry::{MappingField, bad_line};
use crate::field::{given, needed};
use crate::list::list;
use base_ids::function_ids::{DebugNumber, OperandIndex};
use mir_substitution::mir_func_crate::debug_substitution::{DebugSubstitution, OperandPair};
use mir_substitution::substitutions::Substitutions;
use read_lexer::line::Line;
use read_refusal::first::{Refusal, earlier};
use std::alloc::{AllocError, Global};

/// The substitutions so far, and the first refusal.
#[derive(Drop)]
pub struct SubstitutionsRead {
    pub entries: Substitutions,
    pub refused: Option<Refusal>,
}

/// A pair of an instruction number and an operand index, if both could be read.
fn pair(number: Option<u32>, operand: Option<u32>) -> Option<OperandPair>
    ensures { result ≡ pair_of number operand }
{
    match (number, operand) {
        (Some(number), Some(operand)) => Some(OperandPair {
            number: DebugNumber(number),
            operand: OperandIndex(operand),
        }),
        _ => None,
    }
}

/// The substitution with these fields, if all of them could be read.
fn substitution_in(lines: &[Line], fields: &[MappingField]) -> Option<DebugSubstitution>
    ensures { result ≡ substitution_of lines.now fields.now }
{
    let src = pair(
        needed(lines, fields, b"srcinst"),
        needed(lines, fields, b"srcop"),
    );
    let dst = pair(
        needed(lines, fields, b"dstinst"),
        needed(lines, fields, b"dstop"),
    );
    let subreg = given(lines, fields, b"subreg", 0);
    match (src, dst, subreg) {
        (Some(src), Some(dst), Some(subreg)) => Some(DebugSubstitution { src, dst, subreg }),
        _ => None,
    }
}

/// Judges one more entry.
fn judge(
    read: &mut SubstitutionsRead,
    line: u32,
    entry: Option<DebugSubstitution>,
) -> Result<(), AllocError>
    ensures { OnOk result (read.new ≡ substituted read.old line entry) }
{
    match entry {
        Some(entry) => read.entries.add(entry),
        None => {
            read.refused = earlier(read.refused, Some(bad_line(line)));
            Ok(())
        }
    }
}

/// The substitutions in the lines of `debugValueSubstitutions`, and the first refusal.
pub fn substitutions(alloc: Global, lines: &[Line]) -> Result<SubstitutionsRead, AllocError>
    ensures { IfOk result (λ read. read ≡ substitutions_of lines.now) }
{
    let listing = list(alloc, lines)?;
    let mut read = SubstitutionsRead {
        entries: Substitutions::new(alloc),
        refused: listing.refused,
    };
    for entry in listing.entries.as_slice() {
        let said = substitution_in(lines, entry.fields.as_slice());
        judge(&mut read, entry.line, said)?;
    }
    Ok(read)
}
