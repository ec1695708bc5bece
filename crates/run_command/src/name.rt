//! Whether a program has a function with a name.

ghost use Rattle.std.specs.Prelude.{◌≡◌, ◌↔◌, IsTrue};
ghost use Rattle.run_command.specs.Source.{IsUnknown};

use compile_program::read_program_crate::closing::Parsed;

/// Whether no function that was read has the name.
pub fn is_unknown(functions: &[Parsed], name: &[u8]) -> bool
    ensures { IsTrue result ↔ IsUnknown name.now functions.now }
{
    functions.iter().all(|function| !has_name(function, name))
}

/// Whether a function has a name.
fn has_name(function: &Parsed, name: &[u8]) -> bool
    ensures { IsTrue result ↔ (function.now.func.name ≡ name.now) }
{
    function.func.name.as_slice() == name
}
