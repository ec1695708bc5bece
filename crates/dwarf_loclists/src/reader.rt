//! Queries on a section: the number of its lists, and the location at an address by a list.

ghost use Rattle.std.specs.Prelude.{◌≡◌, ◌<◌, List, length, IfOk, IfErr};
ghost use Rattle.dwarf_loclists.specs.declared.range.Range.{Range};
ghost use Rattle.dwarf_loclists.specs.Fault.{FaultAt};
ghost use Rattle.dwarf_loclists.specs.Grammar.{IsSection, PlaceAt, PieceAt};

use crate::fault::ListFault;
use crate::header::read_header;
use crate::list_reader::read_lists;
use crate::range::Part;
use crate::split::{nth, whole};
use rv64_instr::place::Place;

/// The number of lists of a section. It takes no memory.
pub fn list_count(bytes: &[u8]) -> Result<u32, ListFault>
    ensures ok { IfOk result (λ n. (lists : List (List Range)) × IsSection bytes.now lists × (n ≡ length lists)) }
    // So a list number below the count is one that `place_at` and `piece_at` take.
    ensures count { IfOk result (λ n. (lists : List (List Range)) → IsSection bytes.now lists → n ≡ length lists) }
    ensures err { IfErr result (λ f. FaultAt bytes.now f.at) }
{
    let count = read_header(bytes)?;
    read_lists(bytes, count, 0, 0)?;
    Ok(count)
}

/// The place of the whole variable at an address by list k, counted from 0. `None` if no entry's range contains the
/// address or the location is pieces. It takes no memory.
pub fn place_at(bytes: &[u8], k: u32, address: u64) -> Result<Option<Place>, ListFault>
    requires { (lists : List (List Range)) → IsSection bytes.now lists → k < length lists }
    ensures ok { IfOk result (PlaceAt bytes.now k address) }
    ensures err { IfErr result (λ f. FaultAt bytes.now f.at) }
{
    let count = read_header(bytes)?;
    match read_lists(bytes, count, k, address)? {
        Some(expression) => Ok(whole(expression)),
        None => Ok(None),
    }
}

/// The n-th piece of a variable at an address by list k, both counted from 0; gaps aren't counted. `None` if it has
/// fewer. It takes no memory.
pub fn piece_at(bytes: &[u8], k: u32, address: u64, n: u32) -> Result<Option<Part>, ListFault>
    requires { (lists : List (List Range)) → IsSection bytes.now lists → k < length lists }
    ensures ok { IfOk result (PieceAt bytes.now k address n) }
    ensures err { IfErr result (λ f. FaultAt bytes.now f.at) }
{
    let count = read_header(bytes)?;
    match read_lists(bytes, count, k, address)? {
        Some(expression) => Ok(nth(expression, n)),
        None => Ok(None),
    }
}
