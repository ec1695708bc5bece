//! Parsing from left to right: single lexemes and brackets.

ghost use Rattle.std.specs.Prelude.{◌≡◌, ◌+◌, ◌<◌, ◌≤◌, ◌^◌, IfSome};
ghost use Rattle.read_line.specs.Read.{Lends, behind_comma, behind_equals, behind_close};
ghost use Rattle.read_line.specs.Bracket.{inner_behind, behind_bracket};

use read_token::lexeme::Lexeme;

/// The lexemes after a comma.
pub fn behind_comma(lexemes: &[Lexeme]) -> Option<&[Lexeme]>
    ensures { Lends result (behind_comma lexemes.now) }
{
    match lexemes {
        [Lexeme::Comma, rest @ ..] => Some(rest),
        _ => None,
    }
}

/// The lexemes after an equals sign.
pub fn behind_equals(lexemes: &[Lexeme]) -> Option<&[Lexeme]>
    ensures { Lends result (behind_equals lexemes.now) }
{
    match lexemes {
        [Lexeme::Equals, rest @ ..] => Some(rest),
        _ => None,
    }
}

/// The lexemes after a closing bracket.
pub fn behind_close(lexemes: &[Lexeme]) -> Option<&[Lexeme]>
    ensures { Lends result (behind_close lexemes.now) }
{
    match lexemes {
        [Lexeme::Close, rest @ ..] => Some(rest),
        _ => None,
    }
}

/// How many brackets are open inside the outer one after a lexeme; `None` if the lexeme closes the outer one.
fn inner_behind(inner: usize, lexeme: Lexeme) -> Option<usize>
    requires { inner + 1 < 2 ^ 64 }
    ensures value { result ≡ inner_behind inner lexeme }
    ensures bound { IfSome result (λ n. n ≤ inner + 1) }
{
    match lexeme {
        Lexeme::Open => Some(inner + 1),
        Lexeme::Close => inner.checked_sub(1),
        _ => Some(inner),
    }
}

/// The lexemes after the closing bracket of one that is open; what is inside is skipped.
pub fn behind_bracket(lexemes: &[Lexeme]) -> Option<&[Lexeme]>
    ensures { Lends result (behind_bracket 0 lexemes.now) }
{
    let mut inner = 0;
    for (at, lexeme) in lexemes.iter().enumerate() {
        match inner_behind(inner, *lexeme) {
            Some(more) => inner = more,
            None => return Some(&lexemes[at + 1..]),
        }
    }
    None
}
