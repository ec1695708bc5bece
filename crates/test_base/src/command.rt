//! Error messages that no run prints, and the order of the registers for spilling.

use cli::fault::Fault;
use cli::status::Status;
use cli_numbers::text::reserve_list;
use rv64_instr::reg::Reg;
use std::alloc::Global;

/// Whether a fault is told with this line and name, and a run with it ends with this status, of this number.
fn is_told(fault: Fault, line: Option<u32>, name: &str, status: Status, number: u8) -> bool {
    fault.input_line() == line
        && fault.name() == name
        && fault.status() == status
        && status.number() == number
}

/// Whether registers have these numbers, in their order.
fn are_numbered(registers: &[Reg], numbers: &[u32]) -> bool {
    for (register, number) in registers.iter().zip(numbers) {
        if register.number() != *number {
            return false;
        }
    }
    registers.len() == numbers.len()
}

/// Whether the registers of a reserve are these, in their order.
fn is_reserve(alloc: Global, text: &str, numbers: &[u32]) -> bool {
    match reserve_list(alloc, text) {
        Ok(Some(registers)) => are_numbered(registers.as_slice(), numbers),
        _ => false,
    }
}

#[test]
fn faults_and_reserves(rt: HostRuntime) {
    let (memory, refused) = (Status::Memory, Status::Refused);
    assert!(rt; is_told(Fault::Memory, None, "memory", memory, 3));
    assert!(rt;
        is_told(
            Fault::SectionTooLarge,
            Some(0),
            "SectionTooLarge",
            refused,
            1
        )
    );
    assert!(rt; is_reserve(rt.alloc(), "x27,x9,x18", &[27, 9, 18]));
}
