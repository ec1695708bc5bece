//! The types of a program.

use crate::program::{metadata_of, push_name, push_number};
use crate::rows::{TEXT, TYPES};
use base_list::List;
use read_types::laws::{type_nodes_ascend, types_are_their_nodes, types_are_types};
use read_types::types::program_types;
use std::alloc::{AllocError, Global};
use std::fmt::Write;
use std::test::Fail;
use type_nodes::shape::{Enumerator, Member, Shape};

/// Appends the index of a type.
fn push_index(told: &mut String, index: Option<u32>) -> Result<(), AllocError> {
    push_number(told, index.map(u64::from), "void")
}

fn push_members(told: &mut String, members: &[Member]) -> Result<(), AllocError> {
    for member in members {
        write!(told, " |")?;
        push_name(told, member.name.as_slice())?;
        write!(
            told,
            " {} {} {} {}",
            member.base, member.offset, member.size, member.bit_field
        )?;
    }
    Ok(())
}

fn push_enumerators(told: &mut String, enumerators: &[Enumerator]) -> Result<(), AllocError> {
    for enumerator in enumerators {
        write!(told, " |")?;
        push_name(told, enumerator.name.as_slice())?;
        match enumerator.negative {
            Some(value) => write!(told, " {value}")?,
            None => write!(told, " {}", enumerator.value)?,
        }
    }
    Ok(())
}

/// Appends a type.
fn push_shape(told: &mut String, shape: &Shape) -> Result<(), AllocError> {
    match shape {
        Shape::Base(name, size, encoding) => {
            write!(told, " base")?;
            push_name(told, name.as_slice())?;
            write!(told, " {size} {encoding}")
        }
        Shape::Pointer(tag, base) => {
            write!(told, " pointer {tag}")?;
            push_index(told, *base)
        }
        Shape::Qualifier(tag, base) => {
            write!(told, " qualifier {tag}")?;
            push_index(told, *base)
        }
        Shape::Typedef(name, base) => {
            write!(told, " typedef")?;
            push_name(told, name.as_slice())?;
            push_index(told, *base)
        }
        Shape::Declaration(tag, name) => {
            write!(told, " declaration {tag}")?;
            push_name(told, name.as_slice())
        }
        Shape::Record(tag, name, size, members) => {
            write!(told, " record {tag}")?;
            push_name(told, name.as_slice())?;
            write!(told, " {size}")?;
            push_members(told, members.as_slice())
        }
        Shape::Enumeration(name, size, base, enumerators) => {
            write!(told, " enumeration")?;
            push_name(told, name.as_slice())?;
            write!(told, " {size}")?;
            push_index(told, *base)?;
            push_enumerators(told, enumerators.as_slice())
        }
        Shape::Array(base, counts) => {
            write!(told, " array {base}")?;
            for count in counts.as_slice() {
                write!(told, " |")?;
                push_number(told, *count, "?")?;
            }
            Ok(())
        }
        Shape::Subroutine(base, parameters, more) => {
            write!(told, " subroutine")?;
            push_index(told, *base)?;
            for parameter in parameters.as_slice() {
                write!(told, " | {parameter}")?;
            }
            if *more { write!(told, " | ..") } else { Ok(()) }
        }
    }
}

/// The types of the text, each as a row.
fn rows_of(alloc: Global) -> Result<List<String>, AllocError> {
    let metadata = metadata_of(alloc, TEXT)?;
    let program = program_types(alloc, &metadata)?;
    let mut rows = List::new(alloc);
    for (node, shape) in program
        .nodes
        .as_slice()
        .iter()
        .zip(program.types.as_slice())
    {
        let mut told = String::new(alloc);
        write!(&mut told, "{}", node.number())?;
        push_shape(&mut told, shape)?;
        rows.push(told)?;
    }
    Ok(rows)
}

#[test]
fn types_are_read(rt: HostRuntime) -> Result<(), Fail> {
    type_nodes_ascend();
    types_are_their_nodes();
    types_are_types();
    let rows = rows_of(rt.alloc())?;
    for (row, told) in rows.as_slice().iter().zip(TYPES) {
        assert!(rt; row.as_str() == *told);
    }
    assert!(rt; rows.len() == TYPES.len());
    Ok(())
}
