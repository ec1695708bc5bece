//! Entries and instructions by address.

ghost use Rattle.std.specs.Prelude.{◌≡◌, ◌<◌, ◌≤◌, ◌+◌, ◌*◌, ◌^◌, ◌++◌, All, Some, None, Option, true, false, IfSome, IsSome};
ghost use Rattle.std.specs.Prelude.{MatchOption, IfOk, OnOk, cond, is_some, length, slice_index};
ghost use Rattle.rv64_instr.specs.Decoded.{Shows, ShowsWay};
ghost use Rattle.rv64_instr.specs.LocationEffects.{is_call};
ghost use Rattle.rv64_instr.specs.Row as row;
ghost use Rattle.rv64_instr.specs.Row.{Row, CallSite, row_of};
ghost use Rattle.mir_func.specs.Sound.{AllItems};
ghost use Rattle.mir_func.specs.SoundFrame.{IsPhysical, HasPhysical};
ghost use Rattle.sem_machine.specs.Image.{Image, word_at};
ghost use Rattle.sem_machine.specs.MachineStep.{call_of, left_by, callee_size};
ghost use Rattle.sim_machine.specs.Shown.{ShowsCode, entry_at, entry_call, entry_left, word_place, word_places};
ghost use Rattle.sim_machine.specs.steps.Sites.{instruction_in, TransfersSo};

use emit_code::code::{Code, EncodedInstruction};
use mir_func::framed::Framed;
use mir_func::item::ItemKind;
use mir_func::position::ProgramPoint;
use rv64_instr::decoded::{Callee, Decoded, Way};
use rv64_instr::effects::is_call;
use rv64_instr::instr::Instr;
use std::alloc::{AllocError, Global};

/// For each word from the first address on, the probable index of its entry.
pub type Places = Vec<usize>;

/// The number of bytes of a word.
const WORD: u64 = 4;

/// How control goes to a callee.
#[derive(Clone, Copy, Debug, PartialEq, Eq)]
pub enum Transfer {
    /// By a call.
    Call(Callee),
    /// By a call in tail position, or one that doesn't return: it leaves the function.
    Departure(Way),
    /// Not at all.
    Nothing,
}

/// The index of the entry of each word. One that goes to a function of a name has two words.
pub fn places(alloc: Global, code: &Code) -> Result<Places, AllocError>
    ensures { IfOk result (λ p. p.items ≡ word_places 0 code.now.entries) }
{
    let places = places_of(alloc, code.entries.as_slice())?;
    Ok(places)
}

/// The index of the entry of each word, of these entries.
fn places_of(alloc: Global, entries: &[EncodedInstruction]) -> Result<Places, AllocError>
    ensures { IfOk result (λ p. p.items ≡ word_places 0 entries.now) }
{
    let mut places = Vec::new(alloc);
    for i in 0..entries.len() {
        let entry = entries[i];
        add_place(&mut places, i, entry)?;
    }
    Ok(places)
}

/// Adds the index of an entry, once for each of its words.
#[tactic(auto, using(crate::proofs::Words::place_of_call, crate::proofs::Words::place_of_word))]
fn add_place(places: &mut Places, i: usize, entry: EncodedInstruction) -> Result<(), AllocError>
    ensures { OnOk result (places.new.items ≡ places.old.items ++ word_place i entry) }
{
    places.push(i)?;
    if entry.call {
        places.push(i)?;
    }
    Ok(())
}

/// The entry that begins at an address. It is searched for only if it isn't at its probable index.
pub fn find(probable: &Places, code: &Code, address: u64) -> Option<EncodedInstruction>
    ensures found { result ≡ entry_at code.now.entries address }
    ensures begins { IfSome result (λ e. e.address ≡ address) }
    ensures within { IfSome result (λ e. e.address < code.now.base + 4 * length code.now.words) }
{
    let entries = code.entries.as_slice();
    match probable_entry(probable, code, address) {
        Some(entry) => Some(entry),
        None => search(entries, address),
    }
}

/// The entry at the probable index, if it begins at the address.
fn probable_entry(probable: &Places, code: &Code, address: u64) -> Option<EncodedInstruction>
    ensures found { IfSome result (λ e. entry_at code.now.entries address ≡ Some e) }
    ensures begins { IfSome result (λ e. e.address ≡ address) }
{
    if address < code.base {
        return None;
    }
    let place = ((address - code.base) / WORD) as usize;
    let entries = code.entries.as_slice();
    if place < probable.len() {
        let i = probable[place];
        if i < entries.len() {
            let entry = entries[i];
            if entry.address == address {
                return Some(entry);
            }
        }
    }
    None
}

fn search(entries: &[EncodedInstruction], address: u64) -> Option<EncodedInstruction>
    ensures found { result ≡ entry_at entries.now address }
    ensures begins { IfSome result (λ e. e.address ≡ address) }
{
    for entry in entries {
        if entry.address == address {
            return Some(*entry);
        }
    }
    None
}

/// The instruction at a point.
pub fn instruction_at<'a>(framed: &'a Framed, point: &ProgramPoint) -> Option<&'a Instr>
    ensures { MatchOption result (instruction_in framed.now point.now ≡ None)
        (λ i. instruction_in framed.now point.now ≡ Some i.now) }
{
    let blocks = framed.blocks.as_slice();
    match blocks.get(point.block.number() as usize) {
        Some(block) => match block.items.as_slice().get(point.item as usize) {
            Some(item) => match &item.kind {
                ItemKind::Code(i, _) => Some(i),
                ItemKind::Mark(_, _) | ItemKind::Phi(_, _) => None,
            },
            None => None,
        },
        None => None,
    }
}

/// The code of a function with its frame names physical registers alone, an invariant of the type of such functions.
fn know_physical(framed: &Framed)
    ensures { AllItems (λ i. HasPhysical i.kind) framed.now.blocks }
{
    let _ = &framed.blocks;
}

/// Whether an entry's item is a call.
pub fn calls(code: &Code, entry: &EncodedInstruction) -> bool
    ensures { result ≡ is_some (entry_call code.now.framed entry.now) }
{
    match instruction_at(&code.framed, &entry.point) {
        Some(i) => is_call(i),
        None => false,
    }
}

/// How control goes to a callee from an entry's item.
pub fn transfer_at(code: &Code, entry: &EncodedInstruction) -> Transfer
    ensures { TransfersSo result (entry_call code.now.framed entry.now) (entry_left code.now.framed entry.now) }
{
    match instruction_at(&code.framed, &entry.point) {
        Some(i) => transfer_of(&i.decoded()),
        None => Transfer::Nothing,
    }
}

fn transfer_of(decoded: &Decoded) -> Transfer
    ensures { (row : Row) → Shows decoded.now row → TransfersSo result (call_of row) (left_by row) }
{
    match *decoded {
        Decoded::Calls(callee) => Transfer::Call(callee),
        Decoded::Returns(way) => transfer_by(way),
        Decoded::Fixes(_, _)
        | Decoded::Moves(_, _)
        | Decoded::Sets(_, _, _, _)
        | Decoded::Addresses(_, _, _)
        | Decoded::Loads(_, _, _, _)
        | Decoded::Stores(_, _, _, _)
        | Decoded::LoadsSlot(_, _)
        | Decoded::StoresSlot(_, _)
        | Decoded::Branches(_, _, _, _)
        | Decoded::Jumps(_) => Transfer::Nothing,
    }
}

/// How control goes to a callee where it leaves the function so.
fn transfer_by(way: Way) -> Transfer
    ensures { (ending : row.Ending row.Callee) → ShowsWay way ending.way
        → TransfersSo result None (left_by (row.Returns ending)) }
{
    match way {
        Way::Back => Transfer::Nothing,
        Way::Tail(_) => Transfer::Departure(way),
        Way::Never(_) => Transfer::Departure(way),
    }
}

/// The instruction of a call.
pub fn call_at<'a>(code: &'a Code, entry: &EncodedInstruction) -> &'a Instr
    requires stands { entry_at code.now.entries entry.now.address ≡ Some entry.now }
    requires call { IsSome (entry_call code.now.framed entry.now) }
    ensures calls { is_call (row_of result.now) ≡ true }
    ensures same { entry_call code.now.framed entry.now ≡ call_of (row_of result.now) }
    ensures physical { All IsPhysical result.now.operands }
    ensures low { entry.now.address < 2 ^ 63 }
{
    know_physical(&code.framed);
    match instruction_at(&code.framed, &entry.point) {
        Some(i) => i,
        None => unreachable!(),
    }
}

/// The number of bytes of a call: of one by its callee's name two words, of one by a register one.
pub fn call_size(i: &Instr) -> u64
    ensures size { (site : CallSite) → call_of (row_of i.now) ≡ Some site → result ≡ callee_size site.callee }
    ensures few { result ≤ 8 }
{
    bytes(i.decoded().has_site())
}

fn bytes(named: bool) -> u64
    ensures size { result ≡ cond named 8 4 }
    ensures few { result ≤ 8 }
{
    if named { 8 } else { 4 }
}

/// The word of an entry.
pub fn word_of(code: &Code, entry: &EncodedInstruction) -> u32
    requires { entry_at code.now.entries entry.now.address ≡ Some entry.now }
    ensures word { (image : Image) → ShowsCode code.now image → word_at image.text entry.now.address ≡ Some result }
    ensures low { entry.now.address < 2 ^ 63 }
{
    let index = ((entry.address - code.base) / WORD) as usize;
    word_in(code.words.as_slice(), index)
}

fn word_in(words: &[u32], index: usize) -> u32
    requires { index < length words.now }
    ensures value { result ≡ slice_index words.now index }
    ensures small { result < 2 ^ 32 }
{
    words[index]
}
