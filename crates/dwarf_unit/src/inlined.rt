//! The unit of a program with inlined functions.

ghost use Rattle.std.specs.Prelude.{◌≡◌, ◌+◌, ◌-◌, ◌<◌, ◌≤◌, ◌^◌, ◌++◌, ℕ, List, Option, map, length, nat_eq, All, OnOk, IfOk};
ghost use Rattle.std.specs.Ordering.{nat_cmp};
ghost use Rattle.std.specs.BTreeMap.{get};
ghost use Rattle.std.specs.List.{flat_map};
ghost use Rattle.std.specs.Option.{option_eq, option_and_then};
ghost use Rattle.read_metadata.specs.Metadata.{location_at};
ghost use Rattle.dwarf_info.specs.Inlined.{IsInlinedFunction};
ghost use Rattle.dwarf_line_table.specs.Files.{first_uses};
ghost use Rattle.dwarf_line_table.specs.Program.{scope_number};
ghost use Rattle.inline_subroutines.specs.inline_instances.Instances.{scope_of_call};
ghost use Rattle.dwarf_unit.specs.Unit.{function_variables, program_variables, type_uses};
ghost use Rattle.inline_subroutines.specs.Subroutines.{AreDistinct, AreOrdered};
ghost use Rattle.dwarf_unit.specs.Inlined.{call_scopes, line_or_zero, column_or_zero};
ghost use Rattle.dwarf_unit.specs.Inlined.{inlined_function, inlined_unit_of};
ghost use Rattle.dwarf_unit.specs.steps.Calls.{empty_call, place_from};

use crate::subprograms::InlinedSubprograms;
use crate::types::Types;
use crate::variable::variable_entry;
use crate::variables::variables;
use base_ids::metadata::NodeId;
use base_list::List;
use dwarf_info::inlined::{InlinedCall, InlinedFunction, InlinedFunctions, InlinedUnit};
use dwarf_info::unit::{FunctionEntry, VariableEntries};
use dwarf_line_table::source_and_code::SourceAndCode;
use dwarf_line_table::unit_file::unit_file;
use inline_subroutines::subroutine::{InlinedSubroutine, InlinedSubroutines};
use mir_func::variable::VarId;
use read_metadata::metadata::Metadata;
use std::alloc::{AllocError, Global};
use std::collections::BTreeMap;

/// The unit of functions in text order with the instances of each, whose calls' files have these numbers one after the
/// other. The error is out of memory.
pub fn make_inlined_unit(
    alloc: Global,
    functions: &[SourceAndCode],
    meta: &Metadata,
    text_len: u32,
    instances: &[InlinedSubroutines],
    numbers: &[u32],
) -> Result<InlinedUnit, AllocError>
    requires lists { length (program_variables functions.now) < 2 ^ 32 - 2 }
    requires instances { length instances.now ≡ length functions.now }
    requires ordered { All AreOrdered instances.now }
    requires numbers { numbers.now ≡ map (scope_number meta.now functions.now (call_scopes meta.now instances.now))
        (call_scopes meta.now instances.now) }
    ensures unit { IfOk result (λ unit. unit ≡ inlined_unit_of meta.now text_len functions.now instances.now) }
    // What a call refers to is there.
    ensures complete { IfOk result (λ unit.
        All (IsInlinedFunction (length unit.types) (length unit.abstracts)) unit.functions) }
{
    let file = unit_file(alloc, functions, meta)?;
    let mut types = Types::new(alloc);
    let mut subprograms = InlinedSubprograms::new(alloc);
    let mut made = InlinedFunctions::new(alloc);
    let mut list = 0;
    let mut call = 0;
    for (index, function) in functions.iter().enumerate() {
        let within = instances[index].as_slice();
        let files = &numbers[call..call + within.len()];
        let source = function.source;
        let variables = variables(alloc, source.blocks.as_slice())?;
        let entry = inlined_function(
            alloc,
            &mut types,
            &mut subprograms,
            meta,
            list,
            function,
            variables.as_slice(),
            within,
            files,
        )?;
        made.push(entry)?;
        list += variables.len() as u32;
        call += within.len();
    }
    Ok(InlinedUnit {
        name: file.name,
        dir: file.dir,
        text_len,
        types: types.entries(alloc, meta)?,
        abstracts: subprograms.names(alloc, meta)?,
        functions: made,
    })
}

/// The scopes of the calls of all functions, in their order.
pub fn call_scopes(
    alloc: Global,
    meta: &Metadata,
    instances: &[InlinedSubroutines],
) -> Result<List<Option<NodeId>>, AllocError>
    ensures { IfOk result (λ scopes. scopes ≡ call_scopes meta.now instances.now) }
{
    let mut scopes = List::new(alloc);
    for within in instances {
        push_scopes(&mut scopes, meta, within.as_slice())?;
    }
    Ok(scopes)
}

/// Appends the scopes of the calls of a function.
fn push_scopes(
    scopes: &mut List<Option<NodeId>>,
    meta: &Metadata,
    instances: &[InlinedSubroutine],
) -> Result<(), AllocError>
    ensures { OnOk result (scopes.new ≡ scopes.old ++ map (λ i. scope_of_call meta.now i.call) instances.now) }
{
    for instance in instances {
        scopes.push(scope_of(meta, instance.call))?;
    }
    Ok(())
}

/// The scope of the location of a call.
fn scope_of(meta: &Metadata, call: NodeId) -> Option<NodeId>
    ensures { result ≡ scope_of_call meta.now call }
{
    meta.location(call)?.scope
}

/// The entry of a function with its instances. The variables are the function's, with location lists numbered from
/// `first` on.
fn inlined_function(
    alloc: Global,
    types: &mut Types,
    subprograms: &mut InlinedSubprograms,
    meta: &Metadata,
    first: u32,
    function: &SourceAndCode,
    variables: &[VarId],
    instances: &[InlinedSubroutine],
    numbers: &[u32],
) -> Result<InlinedFunction, AllocError>
    requires variables { variables.now ≡ function_variables function.now }
    requires once { AreDistinct (map (λ i. i.call) instances.now) }
    requires room { length types.old + length variables.now < 2 ^ 32 - 2 }
    requires lists { first + length variables.now < 2 ^ 32 }
    requires numbers { length numbers.now ≡ length instances.now }
    ensures types { OnOk result (types.new ≡ first_uses nat_eq types.old (flat_map (type_uses meta.now) variables.now)) }
    ensures subprograms { OnOk result
        (subprograms.new ≡ first_uses (option_eq nat_eq) subprograms.old (map (λ i. i.subprogram) instances.now)) }
    // Whatever types and subprograms join later.
    ensures function { (number : Option ℕ → ℕ) (later : List ℕ) (others : List (Option ℕ)) →
        numbers.now ≡ map (λ i. number (scope_of_call meta.now i.call)) instances.now →
        IfOk result (λ f. f ≡ inlined_function meta.now number (types.new ++ later) (subprograms.new ++ others) first
        function.now instances.now) }
    ensures few { OnOk result (length types.new ≤ length types.old + length variables.now) }
{
    let index = by_node(alloc, instances)?;
    let mut calls = empty_calls(alloc, subprograms, meta, instances, numbers)?;
    let mut own = VariableEntries::new(alloc);
    let mut list = first;
    for v in variables {
        let entry = variable_entry(alloc, types, meta, list, v)?;
        match place(&index, v) {
            Some(k) => calls[k].variables.push(entry)?,
            None => own.push(entry)?,
        }
        list += 1;
    }
    let source = function.source;
    let code = function.code;
    Ok(InlinedFunction {
        function: FunctionEntry {
            name: source.name.copy()?,
            lo: code.base,
            len: 4 * code.words.len() as u32,
            variables: own,
        },
        calls: List::from(calls),
    })
}

/// The instances by the nodes of their calls.
fn by_node(
    alloc: Global,
    instances: &[InlinedSubroutine],
) -> Result<BTreeMap<u32, usize>, AllocError>
    ensures { IfOk result (λ index. (n : ℕ) → get nat_cmp index n ≡ place_from 0 instances.now n) }
{
    let mut index = BTreeMap::new(alloc);
    let mut k = instances.len();
    while k > 0 {
        k -= 1;
        drop(index.insert(instances[k].call.number(), k)?);
    }
    Ok(index)
}

/// The instance in whose code a variable is.
fn place(index: &BTreeMap<u32, usize>, v: &VarId) -> Option<usize>
    ensures { result ≡ option_and_then (λ n. get nat_cmp index.now n) v.now.inlined_at }
{
    let at = v.inlined_at?;
    index.get(&at.number()).copied()
}

/// The entries of calls without their variables.
fn empty_calls(
    alloc: Global,
    subprograms: &mut InlinedSubprograms,
    meta: &Metadata,
    instances: &[InlinedSubroutine],
    numbers: &[u32],
) -> Result<Vec<InlinedCall>, AllocError>
    requires { length numbers.now ≡ length instances.now }
    ensures subprograms { OnOk result
        (subprograms.new ≡ first_uses (option_eq nat_eq) subprograms.old (map (λ i. i.subprogram) instances.now)) }
    ensures count { IfOk result (λ calls. length calls.items ≡ length instances.now) }
    ensures calls { (number : Option ℕ → ℕ) (others : List (Option ℕ)) →
        numbers.now ≡ map (λ i. number (scope_of_call meta.now i.call)) instances.now →
        IfOk result (λ calls. calls.items ≡ map (empty_call meta.now number (subprograms.new ++ others)) instances.now) }
{
    let mut calls = Vec::new(alloc);
    for (k, instance) in instances.iter().enumerate() {
        let (line, column) = call_position(meta, instance.call);
        calls.push(InlinedCall {
            parent: instance.parent,
            origin: subprograms.number(instance.subprogram)?,
            file: numbers[k],
            line,
            column,
            variables: VariableEntries::new(alloc),
        })?;
    }
    Ok(calls)
}

/// The line and the column of a call.
fn call_position(meta: &Metadata, call: NodeId) -> (u32, u32)
    ensures line { result.0 ≡ line_or_zero (location_at meta.now call) }
    ensures column { result.1 ≡ column_or_zero (location_at meta.now call) }
{
    match meta.location(call) {
        Some(location) => (location.line, location.column),
        None => (0, 0),
    }
}
