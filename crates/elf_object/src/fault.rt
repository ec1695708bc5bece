//! The first wrong field of a file: whether its bytes are those of an object, and where not.

ghost use Rattle.std.specs.Prelude.{◌≡◌, ◌+◌, ◌*◌, ◌≤◌, ◌<◌, ◌==◌, [], ◌∷◌, length, take, drop};
ghost use Rattle.std.specs.Prelude.{nat_le, true, IsTrue, MatchOption, None};
ghost use Rattle.std.specs.List.{position_or_len};
ghost use Rattle.elf_object.specs.Spelling;
ghost use Rattle.elf_object.specs.FirstFault;
ghost use Rattle.elf_object.specs.FirstFault.{first, table_in, count_in, name_in, size_in, offset_in, names_in, IsRight};
ghost use Rattle.elf_object.specs.steps.Told.{total};

use crate::alignment::is_alignment;
use crate::constants::*;
use crate::number::{u16_at, u32_at, u64_at};
use crate::size::{aligned, padding};

/// The sizes of the fields from e_ident up to e_phoff (Elf64_Ehdr).
static FRONT_SIZES: [u8; 18] = [4, 1, 1, 1, 1, 1, 1, 1, 1, 1, 1, 1, 1, 2, 2, 4, 8, 8];
/// These fields.
static FRONT: [u8; 40] = [
    0x7f,
    0x45,
    0x4c,
    0x46,
    ELFCLASS64,
    ELFDATA2LSB,
    EV_CURRENT,
    ELFOSABI_NONE,
    0,
    0,
    0,
    0,
    0,
    0,
    0,
    0,
    1,
    0,
    243,
    0,
    1,
    0,
    0,
    0,
    0,
    0,
    0,
    0,
    0,
    0,
    0,
    0,
    0,
    0,
    0,
    0,
    0,
    0,
    0,
    0,
];
/// The sizes of the fields from e_ehsize up to e_shentsize.
static SIZE_SIZES: [u8; 4] = [2; 4];
/// These fields.
static SIZES: [u8; 8] = [64, 0, 0, 0, 0, 0, 64, 0];
/// The sizes of the fields of a section header (Elf64_Shdr).
static HEADER_SIZES: [u8; 10] = [4, 4, 8, 8, 8, 8, 4, 4, 8, 8];
/// The header of the null section.
static NULL_HEADER: [u8; 64] = [0; 64];
/// The sizes of sh_type, sh_flags and sh_addr.
static TYPE_SIZES: [u8; 3] = [4, 8, 8];
/// These fields of the section of the names.
static TYPE: [u8; 20] = [3, 0, 0, 0, 0, 0, 0, 0, 0, 0, 0, 0, 0, 0, 0, 0, 0, 0, 0, 0];
/// The sizes of the fields from sh_link on.
static LINK_SIZES: [u8; 4] = [4, 4, 8, 8];
/// These fields of the section of the names.
static LINK: [u8; 24] = [
    0, 0, 0, 0, 0, 0, 0, 0, 1, 0, 0, 0, 0, 0, 0, 0, 0, 0, 0, 0, 0, 0, 0, 0,
];
/// The limit on the bytes of the table of names, exclusive: offsets of names have 32 bits.
const NAMES_LIMIT: u64 = 0x1_0000_0000;
/// The sizes of fields of one byte.
static ONES: [u8; 10] = [1; 10];
/// Zero bytes.
static ZEROS: [u8; 8] = [0; 8];
/// The name of this section, and its zero byte.
static NAME: [u8; 10] = *b".shstrtab\0";

/// The first wrong field among those from an offset on, if each has one right value. They have these sizes, and together
/// these bytes.
pub fn constants(bytes: &[u8], at: usize, sizes: &[u8], right: &[u8]) -> Option<usize>
    requires at { at ≤ length bytes.now }
    requires right { total sizes.now ≤ length right.now }
    ensures { result ≡ FirstFault.constants at sizes.now right.now (drop at bytes.now) }
{
    let (_, mut rest) = bytes.split_at(at);
    let mut left = right;
    let mut place = at;
    for size in sizes {
        let (field, later) = left.split_at(*size as usize);
        match rest.strip_prefix(field) {
            Some(after) => rest = after,
            None => return Some(place),
        }
        left = later;
        place += *size as usize;
    }
    None
}

/// The first byte from an offset up to the next multiple of 8 that isn't zero.
fn zeros(bytes: &[u8], at: usize) -> Option<usize>
    requires { at ≤ length bytes.now }
    ensures { result ≡ FirstFault.zeros at bytes.now }
{
    let n = padding(at);
    constants(bytes, at, &ONES[..n], &ZEROS[..n])
}

/// Whether the section header table ends the file.
#[tactic(auto, unfolding(crate::specs::FirstFault::ends_file))]
fn ends_file(bytes: &[u8]) -> bool
    requires { 64 ≤ length bytes.now }
    ensures { result ≡ FirstFault.ends_file bytes.now }
{
    let table = u64_at(bytes, 40);
    let count = u16_at(bytes, 60);
    table as u128 + 64 * count as u128 == bytes.len() as u128 && (64 <= table && table % 8 == 0)
}

/// Whether the section header table ends the file, which may be short.
fn has_table(bytes: &[u8]) -> bool
    ensures exact { result ≡ FirstFault.ends_file bytes.now }
    ensures long { IsTrue result → 64 ≤ length bytes.now }
{
    64 <= bytes.len() && ends_file(bytes)
}

/// Whether a number of section headers is one that a file may have.
fn is_count(count: u16) -> bool
    ensures { result ≡ FirstFault.is_count count }
{
    2 <= count && count < SHN_LORESERVE
}

/// The first wrong field from e_ident up to e_phoff.
fn front_fault(bytes: &[u8]) -> Option<usize>
    ensures { result ≡ FirstFault.front_fault bytes.now }
{
    constants(bytes, 0, &FRONT_SIZES, &FRONT)
}

/// The first wrong field from e_ehsize up to e_shentsize.
fn sizes_fault(bytes: &[u8]) -> Option<usize>
    requires { 64 ≤ length bytes.now }
    ensures { result ≡ FirstFault.sizes_fault bytes.now }
{
    constants(bytes, 52, &SIZE_SIZES, &SIZES)
}

/// Whether e_shstrndx is wrong.
fn index_fault(bytes: &[u8], count: u16) -> Option<usize>
    requires long { 64 ≤ length bytes.now }
    requires count { count ≡ count_in bytes.now }
    requires some { 0 < count }
    ensures { result ≡ FirstFault.index_fault bytes.now }
{
    let index = (count - 1).to_le_bytes();
    constants(bytes, 62, &[2], &index)
}

/// The first wrong field of the ELF header.
#[tactic(auto, unfolding(crate::specs::FirstFault::file_fault))]
fn file_fault(bytes: &[u8]) -> Option<usize>
    ensures { result ≡ FirstFault.file_fault bytes.now }
{
    if let Some(at) = front_fault(bytes) {
        return Some(at);
    }
    if !has_table(bytes) {
        return Some(40);
    }
    if let Some(at) = sizes_fault(bytes) {
        return Some(at);
    }
    let count = u16_at(bytes, 60);
    if !is_count(count) {
        return Some(60);
    }
    index_fault(bytes, count)
}

/// The first wrong field of the null section's header.
fn null_fault(bytes: &[u8], table: usize) -> Option<usize>
    requires table { table ≡ table_in bytes.now }
    requires within { table ≤ length bytes.now }
    ensures { result ≡ FirstFault.null_fault bytes.now }
{
    constants(bytes, table, &HEADER_SIZES, &NULL_HEADER)
}

/// The number of bytes before the first zero byte from an offset on.
pub fn name_len(names: &[u8], at: usize) -> usize
    ensures within { result ≤ length names.now }
    ensures exact { result ≡ position_or_len (λ b. b == 0) (drop at names.now) }
{
    if names.len() <= at {
        return 0;
    }
    let (_, rest) = names.split_at(at);
    for (index, byte) in rest.iter().enumerate() {
        if *byte == 0 {
            return index;
        }
    }
    rest.len()
}

/// Whether a section's name begins at an offset in the table of names, and is closed.
#[tactic(auto, unfolding(crate::specs::FirstFault::is_name_at))]
fn is_name_at(bytes: &[u8], names: &[u8], header: usize, name_at: usize) -> bool
    requires { header + 64 ≤ length bytes.now }
    ensures { result ≡ FirstFault.is_name_at names.now header name_at bytes.now }
{
    let name = u32_at(bytes, header) as usize;
    name == name_at && name + name_len(names, name) + 1 <= names.len()
}

/// Where a section's name ends in the table of names, with its zero byte.
fn name_end(bytes: &[u8], names: &[u8], header: usize) -> usize
    requires { header + 64 ≤ length bytes.now }
    ensures { result ≡ FirstFault.name_end names.now header bytes.now }
{
    let name = u32_at(bytes, header) as usize;
    name + name_len(names, name) + 1
}

/// Whether a section's bytes begin at the next multiple of 8 after an offset.
fn is_placed(bytes: &[u8], header: usize, at: usize) -> bool
    requires header { header + 64 ≤ length bytes.now }
    requires at { at ≤ length bytes.now }
    ensures { result ≡ (offset_in header bytes.now == Spelling.aligned at) }
{
    u64_at(bytes, header + 24) == aligned(at) as u64
}

/// Whether a section's bytes end within an offset of the file.
fn ends_within(bytes: &[u8], header: usize, table: usize) -> bool
    requires { header + 64 ≤ length bytes.now }
    ensures { result ≡ nat_le (FirstFault.bytes_end header bytes.now) table }
{
    u64_at(bytes, header + 24) as u128 + u64_at(bytes, header + 32) as u128 <= table as u128
}

/// The first wrong field of a section whose name begins at an offset, and before which the bytes of sections end at
/// another.
#[tactic(auto, unfolding(crate::specs::FirstFault::section_fault))]
fn section_fault(
    bytes: &[u8],
    names: &[u8],
    table: usize,
    header: usize,
    name_at: usize,
    at: usize,
) -> Option<usize>
    requires header { header + 64 ≤ length bytes.now }
    requires at { at ≤ length bytes.now }
    ensures { result ≡ FirstFault.section_fault names.now table header name_at at bytes.now }
{
    if !is_name_at(bytes, names, header, name_at) {
        return Some(header);
    }
    if u64_at(bytes, header + 16) != 0 {
        return Some(header + 16);
    }
    if !is_placed(bytes, header, at) {
        return Some(header + 24);
    }
    if !ends_within(bytes, header, table) {
        return Some(header + 32);
    }
    if !is_alignment(u64_at(bytes, header + 48)) {
        return Some(header + 48);
    }
    zeros(bytes, at)
}

/// Whether the bytes of the section of the names end with its own name, and right before the section header table.
#[tactic(auto, unfolding(crate::specs::FirstFault::is_names_size))]
fn is_names_size(bytes: &[u8], table: usize, header: usize) -> bool
    requires { header + 64 ≤ length bytes.now }
    ensures { result ≡ FirstFault.is_names_size table header bytes.now }
{
    let size = u64_at(bytes, header + 32);
    let end = u64_at(bytes, header + 24) as u128 + size as u128;
    size == u32_at(bytes, header) as u64 + 10
        && (size < NAMES_LIMIT && end + (8 - end % 8) % 8 == table as u128)
}

/// The first wrong field from sh_type up to sh_addr of the section of the names.
fn type_fault(bytes: &[u8], header: usize) -> Option<usize>
    requires { header + 64 ≤ length bytes.now }
    ensures { result ≡ FirstFault.type_fault header bytes.now }
{
    constants(bytes, header + 4, &TYPE_SIZES, &TYPE)
}

/// The first wrong field from sh_link on.
fn link_fault(bytes: &[u8], header: usize) -> Option<usize>
    requires { header + 64 ≤ length bytes.now }
    ensures { result ≡ FirstFault.link_fault header bytes.now }
{
    constants(bytes, header + 40, &LINK_SIZES, &LINK)
}

/// Whether the first byte of the section of the names is wrong, which is at an offset.
fn start_fault(bytes: &[u8], offset: usize) -> Option<usize>
    requires { offset ≤ length bytes.now }
    ensures { result ≡ FirstFault.start_fault offset bytes.now }
{
    constants(bytes, offset, &[1], &[0])
}

/// The first wrong byte of this section's own name, which begins at an offset.
fn own_fault(bytes: &[u8], offset: usize) -> Option<usize>
    requires { offset ≤ length bytes.now }
    ensures { result ≡ FirstFault.own_fault offset bytes.now }
{
    constants(bytes, offset, &ONES, &NAME)
}

/// The first wrong byte of the section of the names and behind it, by its header.
fn strings_fault(bytes: &[u8], header: usize, table: usize, name_at: usize) -> Option<usize>
    requires header { header + 64 ≤ length bytes.now }
    requires table { table ≤ length bytes.now }
    requires name { name_in header bytes.now ≡ name_at }
    requires size { FirstFault.is_names_size table header bytes.now ≡ true }
    ensures { result ≡ first (FirstFault.start_fault (offset_in header bytes.now) bytes.now
        ∷ FirstFault.own_fault (offset_in header bytes.now + name_at) bytes.now
        ∷ FirstFault.zeros (FirstFault.bytes_end header bytes.now) bytes.now ∷ []) }
{
    let end = bytes_end(bytes, header, table);
    let offset = u64_at(bytes, header + 24) as usize;
    if let Some(wrong) = start_fault(bytes, offset) {
        return Some(wrong);
    }
    if let Some(wrong) = own_fault(bytes, offset + name_at) {
        return Some(wrong);
    }
    zeros(bytes, end)
}

/// The first wrong field of the section of the names, whose own name begins at an offset, and before which the bytes of
/// sections end at another.
#[tactic(auto, unfolding(crate::specs::FirstFault::names_fault))]
fn names_fault(
    bytes: &[u8],
    table: usize,
    header: usize,
    name_at: usize,
    at: usize,
) -> Option<usize>
    requires header { header + 64 ≤ length bytes.now }
    requires at { at ≤ length bytes.now }
    requires table { table ≤ length bytes.now }
    ensures { result ≡ FirstFault.names_fault table header name_at at bytes.now }
{
    if u32_at(bytes, header) as usize != name_at {
        return Some(header);
    }
    if let Some(wrong) = type_fault(bytes, header) {
        return Some(wrong);
    }
    if !is_placed(bytes, header, at) {
        return Some(header + 24);
    }
    if !is_names_size(bytes, table, header) {
        return Some(header + 32);
    }
    if let Some(wrong) = link_fault(bytes, header) {
        return Some(wrong);
    }
    if let Some(wrong) = zeros(bytes, at) {
        return Some(wrong);
    }
    strings_fault(bytes, header, table, name_at)
}

/// The bytes of a section, as its header tells, as far as the file has them.
pub fn section_bytes(bytes: &[u8], header: usize) -> &[u8]
    requires { header + 64 ≤ length bytes.now }
    ensures { result.now ≡ take (size_in header bytes.now) (drop (offset_in header bytes.now) bytes.now) }
{
    let offset = u64_at(bytes, header + 24);
    let size = u64_at(bytes, header + 32);
    front(behind(bytes, offset), size)
}

/// The bytes from an offset on.
pub fn behind(bytes: &[u8], offset: u64) -> &[u8]
    ensures { result.now ≡ drop offset bytes.now }
{
    if offset <= bytes.len() as u64 {
        &bytes[offset as usize..]
    } else {
        &bytes[bytes.len()..]
    }
}

/// The first bytes, at most so many.
pub fn front(bytes: &[u8], size: u64) -> &[u8]
    ensures { result.now ≡ take size bytes.now }
{
    if size <= bytes.len() as u64 {
        &bytes[..size as usize]
    } else {
        bytes
    }
}

/// The first wrong field of the sections of a file, whose section header table is at an offset and has so many headers.
/// `names` is the bytes of the last section.
fn sections_fault(bytes: &[u8], names: &[u8], table: usize, count: usize) -> Option<usize>
    requires file { FirstFault.file_fault bytes.now ≡ None }
    requires null { FirstFault.null_fault bytes.now ≡ None }
    requires names { names.now ≡ names_in bytes.now }
    requires table { table ≡ table_in bytes.now }
    requires count { count ≡ count_in bytes.now }
    requires few { 2 ≤ count }
    requires behind { 64 ≤ table }
    requires size { table + 64 * count ≡ length bytes.now }
    ensures { MatchOption result (IsRight bytes.now) (FirstFault.FirstFault bytes.now) }
{
    let mut name_at = 1;
    let mut at = 64;
    for index in 0..count - 2 {
        let header = table + 64 * (index + 1);
        if let Some(wrong) = section_fault(bytes, names, table, header, name_at, at) {
            return Some(wrong);
        }
        name_at = name_end(bytes, names, header);
        at = bytes_end(bytes, header, table);
    }
    names_fault(bytes, table, table + 64 * (count - 1), name_at, at)
}

/// Where a section's bytes end in the file, within an offset.
fn bytes_end(bytes: &[u8], header: usize, table: usize) -> usize
    requires header { header + 64 ≤ length bytes.now }
    requires within { FirstFault.bytes_end header bytes.now ≤ table }
    ensures { result ≡ FirstFault.bytes_end header bytes.now }
{
    (u64_at(bytes, header + 24) + u64_at(bytes, header + 32)) as usize
}

/// The first wrong field of a file. `None` if and only if it is that of an object.
pub fn first_fault(bytes: &[u8]) -> Option<usize>
    ensures { MatchOption result (IsRight bytes.now) (FirstFault.FirstFault bytes.now) }
{
    if let Some(wrong) = file_fault(bytes) {
        return Some(wrong);
    }
    let table = u64_at(bytes, 40) as usize;
    let count = u16_at(bytes, 60) as usize;
    if let Some(wrong) = null_fault(bytes, table) {
        return Some(wrong);
    }
    let names = section_bytes(bytes, table + 64 * (count - 1));
    sections_fault(bytes, names, table, count)
}
