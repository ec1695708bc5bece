//! Parsing of lists of passes.

ghost use Rattle.std.specs.Prelude.{◌≡◌, ◌↔◌, List, Some};
ghost use Rattle.pass_list.specs.declared.kind.PassKind.{PassKind};
ghost use Rattle.pass_list.specs.Names.{text_of, AreDistinct, IsNamedBehind, AreNamedBehind};

use crate::kind::{is_same, named};
use crate::list::PassList;

/// The list in a text: `none`, or names of passes, separated by commas, each at most once. `None` if the text is no
/// such list.
pub fn pass_list(text: &str) -> Option<PassList>
    ensures { (list : List PassKind) → (result ≡ Some list) ↔ ((text.now ≡ text_of list) × AreDistinct list) }
{
    if is_same(text, "none") {
        Some(PassList::empty())
    } else {
        with_names(&PassList::empty(), text)
    }
}

/// The list with the passes appended that a text names, separated by commas.
fn with_names(list: &PassList, text: &str) -> Option<PassList>
    ensures { (whole : List PassKind) → (result ≡ Some whole) ↔ AreNamedBehind list.now text.now whole }
{
    match text.split_once(',') {
        None => with_name(list, text),
        Some((name, rest)) => match with_name(list, name) {
            None => None,
            Some(longer) => with_names(&longer, rest),
        },
    }
}

/// The list with the pass of this name appended.
fn with_name(list: &PassList, name: &str) -> Option<PassList>
    ensures { (whole : List PassKind) → (result ≡ Some whole) ↔ IsNamedBehind list.now name.now whole }
{
    match named(name) {
        None => None,
        Some(pass) => list.with(pass),
    }
}
