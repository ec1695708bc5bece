//! The classes of bytes in tokens, and runs of them.

ghost use Rattle.std.specs.Prelude.{◌≡◌, ◌+◌, ◌==◌, ◌<◌, ◌≤◌, ◌^◌, length, position, IfSome};
ghost use Rattle.std.specs.List.{prefix_len};
ghost use Rattle.std.specs.Char.{is_ascii_digit, is_ascii_hexdigit};
ghost use Rattle.read_lexer.specs.Bytes.{is_blank, is_word_start, is_word_byte, is_symbol_byte, is_single, word_len};
ghost use Rattle.read_lexer.specs.Bytes.{with_digits, sign_len, exponent_len, with_exponent, fraction_len};

/// Whether a byte separates tokens.
pub fn is_blank(byte: u8) -> bool
    ensures { result ≡ is_blank byte }
{
    byte == b' ' || byte == b'\t'
}

/// Whether a byte may begin a word.
pub fn is_word_start(byte: u8) -> bool
    ensures { result ≡ is_word_start byte }
{
    byte.is_ascii_alphabetic() || byte == b'_'
}

/// Whether a byte may be in a word.
pub fn is_word_byte(byte: u8) -> bool
    ensures { result ≡ is_word_byte byte }
{
    byte.is_ascii_alphanumeric() || byte == b'_' || byte == b'.' || byte == b'-'
}

/// Whether a byte may be in the unquoted name of a symbol.
pub fn is_symbol_byte(byte: u8) -> bool
    ensures { result ≡ is_symbol_byte byte }
{
    is_word_byte(byte) || byte == b'$'
}

/// Whether a byte is a token by itself.
pub fn is_single(byte: u8) -> bool
    ensures { result ≡ is_single byte }
{
    matches!(
        byte,
        b'=' | b','
            | b'('
            | b')'
            | b':'
            | b'{'
            | b'}'
            | b'['
            | b']'
            | b'<'
            | b'>'
            | b'|'
            | b'+'
            | b'-'
    )
}

/// The number of word bytes at the front.
#[tactic(auto, using(crate::proofs::Runs::runs))]
pub fn word_bytes(bytes: &[u8]) -> usize
    ensures value { result ≡ prefix_len is_word_byte bytes.now }
    ensures within { result ≤ length bytes.now }
{
    bytes.iter().take_while(|b| is_word_byte(**b)).count()
}

/// The number of symbol bytes at the front.
#[tactic(auto, using(crate::proofs::Runs::runs))]
pub fn symbol_bytes(bytes: &[u8]) -> usize
    ensures value { result ≡ prefix_len is_symbol_byte bytes.now }
    ensures within { result ≤ length bytes.now }
{
    bytes.iter().take_while(|b| is_symbol_byte(**b)).count()
}

/// The number of decimal digits at the front.
#[tactic(auto, using(crate::proofs::Runs::runs))]
pub fn digits(bytes: &[u8]) -> usize
    ensures value { result ≡ prefix_len is_ascii_digit bytes.now }
    ensures within { result ≤ length bytes.now }
{
    bytes.iter().take_while(|b| b.is_ascii_digit()).count()
}

/// The number of hexadecimal digits at the front.
#[tactic(auto, using(crate::proofs::Runs::runs))]
pub fn hexadecimal_digits(bytes: &[u8]) -> usize
    ensures value { result ≡ prefix_len is_ascii_hexdigit bytes.now }
    ensures within { result ≤ length bytes.now }
{
    bytes.iter().take_while(|b| b.is_ascii_hexdigit()).count()
}

/// The length of the word at the front; 0 if there is none.
pub fn word(bytes: &[u8]) -> usize
    ensures value { result ≡ word_len bytes.now }
    ensures within { result ≤ length bytes.now }
{
    match bytes {
        [first, after @ ..] if is_word_start(*first) => 1 + word_bytes(after),
        _ => 0,
    }
}

/// A length with that of the digits behind it; 0 if no digit stands there.
fn with_digits(len: usize, behind: &[u8]) -> usize
    requires { len + length behind.now < 2 ^ 64 }
    ensures value { result ≡ with_digits len behind.now }
    ensures within { result ≤ len + length behind.now }
{
    match digits(behind) {
        0 => 0,
        run => len + run,
    }
}

/// The length of a sign at the front; 0 if there is none.
fn sign(bytes: &[u8]) -> usize
    ensures value { result ≡ sign_len bytes.now }
    ensures within { result ≤ length bytes.now }
    ensures short { result ≤ 1 }
{
    match bytes {
        [b'+' | b'-', ..] => 1,
        _ => 0,
    }
}

/// The length of an exponent at the front; 0 if there is none.
fn exponent(bytes: &[u8]) -> usize
    ensures value { result ≡ exponent_len bytes.now }
    ensures within { result ≤ length bytes.now }
{
    match bytes {
        [b'e', after @ ..] => {
            let sign = sign(after);
            with_digits(1 + sign, &after[sign..])
        }
        _ => 0,
    }
}

/// The length of a fraction at the front, with its exponent; 0 if there is none.
pub fn fraction(bytes: &[u8]) -> usize
    ensures value { result ≡ fraction_len bytes.now }
    ensures within { result ≤ length bytes.now }
{
    match bytes {
        [b'.', after @ ..] => match with_digits(1, after) {
            0 => 0,
            len => len + exponent(&after[len - 1..]),
        },
        _ => 0,
    }
}

/// The first index of a byte.
pub fn position(byte: u8, bytes: &[u8]) -> Option<usize>
    ensures value { result ≡ position (λ b. b == byte) bytes.now }
    ensures within { IfSome result (λ i. i < length bytes.now) }
{
    bytes.iter().position(|b| *b == byte)
}
