//! Variables of a function, with their location lists.

ghost use Rattle.std.specs.Prelude.{◌≡◌, ◌<◌, map, length, All, IfOk};
ghost use Rattle.dwarf_loclists.specs.Ranges.{Ascend, ArePlaces};
ghost use Rattle.sim_trace.specs.Variables.{variable_of};

use base_list::List;
use dwarf_loclists::range::{Ranges, copied};
use listing_text::output::ListedVariable;
use rv64_instr::name::Name;
use std::alloc::{AllocError, Global};

/// A variable and its location list.
#[derive(Debug, Drop)]
pub struct Variable {
    /// Its name.
    pub name: Name,
    /// Its location list. The ranges ascend, and their places can be listed.
    pub ranges: Ranges,
}

/// Variables, in the order of their location lists.
pub type Variables = List<Variable>;

/// The listed variables, each with the location list of its list number.
pub fn variables_of(
    alloc: Global,
    listed: &[ListedVariable],
    lists: &[Ranges],
) -> Result<Variables, AllocError>
    requires { All (λ line. line.list < length lists.now) listed.now }
    ensures made { IfOk result (λ variables. variables ≡ map (variable_of lists.now) listed.now) }
    ensures readable { IfOk result (λ variables. All (λ ranges. Ascend ranges × ArePlaces ranges) lists.now
        → All (λ v. Ascend v.ranges × ArePlaces v.ranges) variables) }
{
    let mut variables = Variables::new(alloc);
    for line in listed {
        variables.push(Variable {
            name: line.name.copy()?,
            ranges: copied(alloc, lists[line.list as usize].as_slice())?,
        })?;
    }
    Ok(variables)
}
