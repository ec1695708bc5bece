//! Branch targets through chains of jump-only blocks. A block is jump-only if it has no code, or its first code is a
//! jump; the first block never is. A chain continues while its blocks are jump-only. It ends at the first block that
//! isn't, or that is on a cycle. `leads` maps each jump-only block to the block to which it forwards control, and
//! `ends` maps blocks to the ends of their chains, in time linear in the number of blocks.
#![tactic(auto)]

pub mod ends;
pub mod leads;
