//! Scopes with their code.

use base_list::List;
use dwarf_rnglists::range::AddressRanges;
use scope_ways::scope::LexicalScope;

/// A scope of a function: a lexical block (DWARF 5 section 3.5) or an inlined subroutine (section 3.3.8.2).
#[derive(Debug, Drop)]
pub struct Scope {
    /// Which it is.
    pub place: LexicalScope,
    /// The scope around it, by its index, and none in the function itself.
    pub parent: Option<usize>,
    /// The addresses of its code.
    pub ranges: AddressRanges,
}

/// The scopes of a function, by their first instruction, outer ones first.
pub type Scopes = List<Scope>;
