//! Whether the names of an output can be those of symbols.

ghost use Rattle.std.specs.Prelude.{◌≡◌, ◌↔◌, IsTrue, All};
ghost use Rattle.object_command.specs.Object.{IsSymbolName};
ghost use Rattle.linkable_command.specs.Linkable.{HaveLinkableNames};
ghost use Rattle.linkable_command.specs.References.{references};

use crate::reference::Reference;
use listing_text::output::ListedFunction;
use object_command::names::{are_functions_named, is_symbol_name};

/// Whether the names of functions, and those to which code refers, can be symbols'.
pub fn have_linkable_names(functions: &[ListedFunction], referred: &[Reference]) -> bool
    requires { referred.now ≡ references functions.now }
    ensures { IsTrue result ↔ HaveLinkableNames functions.now }
{
    are_functions_named(functions) && are_references_named(referred)
}

/// Whether the names to which code refers can be symbols'.
fn are_references_named(referred: &[Reference]) -> bool
    ensures { IsTrue result ↔ All (λ r. IsSymbolName r.name) referred.now }
{
    for reference in referred {
        if !is_symbol_name(reference.name.as_slice()) {
            return false;
        }
    }
    true
}
