//! Whether the names of an output can be those of symbols, and its code needs no other relocation than those of calls.

ghost use Rattle.std.specs.Prelude.{◌≡◌, ◌↔◌, IsTrue, All};
ghost use Rattle.object_command.specs.Calls.{call_sites};
ghost use Rattle.object_command.specs.Object.{IsSymbolName, HaveSymbolNames};

use crate::calls::CallSite;
use crate::halves::have_no_half;
use elf_object::names::is_name;
use listing_text::output::ListedFunction;

/// Whether the names of functions, and those at their call sites, can be symbols', and no code has a half of a symbol's
/// address.
pub fn have_symbol_names(functions: &[ListedFunction], sites: &[CallSite]) -> bool
    requires { sites.now ≡ call_sites functions.now }
    ensures { IsTrue result ↔ HaveSymbolNames functions.now }
{
    are_functions_named(functions) && are_sites_named(sites) && have_no_half(functions)
}

/// Whether a name can be a symbol's: it isn't empty, and has no zero byte.
pub fn is_symbol_name(name: &[u8]) -> bool
    ensures { IsTrue result ↔ IsSymbolName name.now }
{
    !name.is_empty() && is_name(name)
}

/// Whether the functions' names can be symbols'.
pub fn are_functions_named(functions: &[ListedFunction]) -> bool
    ensures { IsTrue result ↔ All (λ f. IsSymbolName f.name) functions.now }
{
    for function in functions {
        if !is_symbol_name(function.name.as_slice()) {
            return false;
        }
    }
    true
}

/// Whether the names at call sites can be symbols'.
fn are_sites_named(sites: &[CallSite]) -> bool
    ensures { IsTrue result ↔ All (λ c. IsSymbolName c.name) sites.now }
{
    for site in sites {
        if !is_symbol_name(site.name.as_slice()) {
            return false;
        }
    }
    true
}
