//! The reader of a section's header.

ghost use Rattle.std.specs.Prelude.{◌≡◌, ◌+◌, ◌*◌, ◌<◌, ◌≤◌, ◌++◌, ℕ, List, [], length, IfOk, IfErr};
ghost use Rattle.std.specs.Prelude.{drop};
ghost use Rattle.dwarf_base.specs.Standard;
ghost use Rattle.dwarf_loclists.specs.Fault.{LocationListField, OffsetEntryCount, MayBe, first_byte, FaultAt};
ghost use Rattle.dwarf_loclists.specs.steps.Reader.{StandsAt, Goes, AtLists};

use crate::fault::ListFault;
use dwarf_base::constants::*;
use dwarf_base::front::split_u32;

/// The bytes of the section's length.
const LENGTH: usize = 4;
/// The bytes of an offset.
const OFFSET: usize = 4;
/// A section's length in the 32-bit format is below this (DWARF 5 section 7.4).
const LENGTH_LIMIT: usize = 0xffff_fff0;

/// The number of lists, by the header (DWARF 5 section 7.29).
pub fn read_header(bytes: &[u8]) -> Result<u32, ListFault>
    ensures ok { IfOk result (λ n. AtLists bytes.now n [] (drop 12 bytes.now) (drop (12 + 4 * n) bytes.now)) }
    ensures size { IfOk result (λ n. length bytes.now < 4 + Standard.LENGTH_LIMIT) }
    ensures err { IfErr result (λ f. FaultAt bytes.now f.at) }
{
    if bytes.len() < LENGTH || bytes.len() - LENGTH >= LENGTH_LIMIT {
        return Err(ListFault { at: 0 });
    }
    let length = (bytes.len() - LENGTH) as u32;
    let rest = expect(bytes, bytes, &length.to_le_bytes())?;
    let rest = expect(bytes, rest, &VERSION.to_le_bytes())?;
    let sizes = [ADDRESS_SIZE];
    let rest = expect(bytes, rest, &sizes)?;
    let sizes = [SEGMENT_SELECTOR_SIZE];
    let rest = expect(bytes, rest, &sizes)?;
    read_count(bytes, rest)
}

/// The number of list offsets, which must fit into the section.
fn read_count(bytes: &[u8], rest: &[u8]) -> Result<u32, ListFault>
    requires { StandsAt bytes.now OffsetEntryCount rest.now }
    ensures ok { IfOk result (λ n. AtLists bytes.now n [] (drop 12 bytes.now) (drop (12 + 4 * n) bytes.now)) }
    ensures err { IfErr result (λ f. FaultAt bytes.now f.at) }
{
    match split_u32(rest) {
        Some((count, after)) => {
            if count as usize <= after.len() / OFFSET {
                Ok(count)
            } else {
                Err(ListFault::at(bytes, rest))
            }
        }
        None => Err(ListFault::at(bytes, rest)),
    }
}

/// The bytes after a field with only one allowed encoding.
pub fn expect<'a>(bytes: &[u8], rest: &'a [u8], field: &[u8]) -> Result<&'a [u8], ListFault>
    requires { length rest.now ≤ length bytes.now }
    ensures ok { IfOk result (λ after. (f next : LocationListField) → StandsAt bytes.now f rest.now
        → MayBe (length bytes.now) f field.now next
        → first_byte next ≡ first_byte f + length field.now → StandsAt bytes.now next after.now) }
    ensures front { IfOk result (λ after. rest.now ≡ field.now ++ after.now) }
    ensures err { IfErr result (λ e. (f : LocationListField) → StandsAt bytes.now f rest.now → Goes f
        → ((xs : List ℕ) (next : LocationListField) → MayBe (length bytes.now) f xs next → xs ≡ field.now)
        → FaultAt bytes.now e.at) }
{
    match rest.strip_prefix(field) {
        Some(after) => Ok(after),
        None => Err(ListFault::at(bytes, rest)),
    }
}
