//! The constant pool of a function (LLVM: `MachineConstantPool`): integers to which code refers by their numbers, since
//! no instruction has them whole.
#![tactic(auto)]

pub mod constant;
