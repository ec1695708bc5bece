//! Registers with their flags, class and `(tied-def N)`.

ghost use Rattle.std.specs.Prelude.{◌≡◌};
ghost use Rattle.read_line.specs.Read.{Gives, Lends};
ghost use Rattle.read_line.specs.Register.{joined, behind_class, behind_tied, named_at, register_at, begins_register};

use crate::form::RegisterForm;
use read_token::lexeme::{Flag, Lexeme, RegisterName, Word};

/// The flag of a register with two flags; `None` if they are `implicit` and `implicit-def`.
fn joined(first: Flag, second: Flag) -> Option<Flag>
    ensures { result ≡ joined first second }
{
    match (first, second) {
        (Flag::Plain, flag) => Some(flag),
        (Flag::Implicit, Flag::ImplicitDef) | (Flag::ImplicitDef, Flag::Implicit) => None,
        (flag, _) => Some(flag),
    }
}

/// The lexemes after a virtual register's class, which is skipped.
fn behind_class(name: RegisterName, lexemes: &[Lexeme]) -> Option<&[Lexeme]>
    ensures { Lends result (behind_class name lexemes.now) }
{
    match (name, lexemes) {
        (RegisterName::Virtual(_), [Lexeme::Colon, Lexeme::Word(_, _), rest @ ..]) => Some(rest),
        (RegisterName::Virtual(_), [Lexeme::Colon, ..]) => None,
        _ => Some(lexemes),
    }
}

/// The lexemes after `(tied-def N)`, which is skipped.
fn behind_tied(lexemes: &[Lexeme]) -> Option<&[Lexeme]>
    ensures { Lends result (behind_tied lexemes.now) }
{
    match lexemes {
        [
            Lexeme::Open,
            Lexeme::Word(Word::TiedDef, _),
            Lexeme::Integer(_),
            Lexeme::Close,
            rest @ ..,
        ] => Some(rest),
        [Lexeme::Open, ..] => None,
        _ => Some(lexemes),
    }
}

/// A register, and the rest after its class and `(tied-def N)`.
#[tactic(auto, unfolding(crate::specs::Register::named_at))]
fn named(flag: Flag, name: RegisterName, lexemes: &[Lexeme]) -> Option<(RegisterForm, &[Lexeme])>
    ensures { Gives (λ x. (x.0, x.1.now)) result (named_at flag name lexemes.now) }
{
    let rest = behind_tied(behind_class(name, lexemes)?)?;
    Some((RegisterForm { flag, name }, rest))
}

/// A register with its flags, class and `(tied-def N)`, and the rest.
#[tactic(auto, unfolding(crate::specs::Register::register_at))]
pub fn register(lexemes: &[Lexeme]) -> Option<(RegisterForm, &[Lexeme])>
    ensures { Gives (λ x. (x.0, x.1.now)) result (register_at Flag.Plain lexemes.now) }
{
    let mut flag = Flag::Plain;
    let mut rest = lexemes;
    while let [Lexeme::Word(Word::Flag(more), _), behind @ ..] = rest {
        let Some(both) = joined(flag, *more) else {
            return None;
        };
        flag = both;
        rest = behind;
    }
    match rest {
        [Lexeme::Register(name), behind @ ..] => named(flag, *name, behind),
        _ => None,
    }
}

/// Whether the lexemes begin with a register or its flags.
#[tactic(auto, unfolding(crate::specs::Register::begins_register))]
pub fn begins_register(lexemes: &[Lexeme]) -> bool
    ensures { result ≡ begins_register lexemes.now }
{
    let mut rest = lexemes;
    while let [Lexeme::Word(Word::Flag(_), _), behind @ ..] = rest {
        rest = behind;
    }
    matches!(rest, [Lexeme::Register(_), ..])
}
