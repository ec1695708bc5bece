//! The text of a program without its debug items: the MIR document of each of its functions, without debug values,
//! DBG_PHIs, debug instruction numbers and substitutions. The constants of its pool stay.
#![tactic(auto)]

pub mod strip_text;
