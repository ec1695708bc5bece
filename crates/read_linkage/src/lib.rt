//! The linkage of functions by the lines of the IR block that define them: `define internal i64 @f(i64 %0) {` defines a
//! function that other object files don't see. (LLVM Language Reference Manual, "Linkage Types".)
#![tactic(auto)]

mod line;
pub mod linkage;
pub mod linkages;
