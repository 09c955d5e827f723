//! The classes of bytes.

ghost use Rattle.std.specs.Prelude.{◌≡◌, ◌≤◌, count_by, length};
ghost use Rattle.std.specs.List.{prefix_len};
ghost use Rattle.std.specs.Char.{is_ascii_digit, is_ascii_hexdigit};
ghost use Rattle.sc_lexer.specs.Class.{is_blank, is_name_start, is_name_byte, is_not_newline, is_newline, begins_with};

/// A space, tab, newline, vertical tab, form feed or carriage return.
pub fn is_blank(byte: u8) -> bool
    ensures { result ≡ is_blank byte }
{
    byte == b' ' || (byte >= 9 && byte <= 13)
}

/// A letter or `_`.
pub fn is_name_start(byte: u8) -> bool
    ensures { result ≡ is_name_start byte }
{
    byte.is_ascii_alphabetic() || byte == b'_'
}

/// A letter, a digit or `_`.
pub fn is_name_byte(byte: u8) -> bool
    ensures { result ≡ is_name_byte byte }
{
    byte.is_ascii_alphanumeric() || byte == b'_'
}

/// How many blanks the bytes begin with.
#[tactic(auto, using(crate::proofs::NumberLaws::sizes))]
pub fn blanks(bytes: &[u8]) -> usize
    ensures count { result ≡ prefix_len is_blank bytes.now }
    ensures within { result ≤ length bytes.now }
{
    bytes.iter().take_while(|b| is_blank(**b)).count()
}

/// How many bytes of a name the bytes begin with.
#[tactic(auto, using(crate::proofs::NumberLaws::sizes))]
pub fn name_bytes(bytes: &[u8]) -> usize
    ensures count { result ≡ prefix_len is_name_byte bytes.now }
    ensures within { result ≤ length bytes.now }
{
    bytes.iter().take_while(|b| is_name_byte(**b)).count()
}

/// How many decimal digits the bytes begin with.
pub fn digits(bytes: &[u8]) -> usize
    ensures { result ≡ prefix_len is_ascii_digit bytes.now }
{
    bytes.iter().take_while(|b| b.is_ascii_digit()).count()
}

/// How many hexadecimal digits the bytes begin with.
pub fn hex_digits(bytes: &[u8]) -> usize
    ensures { result ≡ prefix_len is_ascii_hexdigit bytes.now }
{
    bytes.iter().take_while(|b| b.is_ascii_hexdigit()).count()
}

/// How many bytes stand before the first newline, or in all.
#[tactic(auto, using(crate::proofs::NumberLaws::sizes))]
pub fn line_bytes(bytes: &[u8]) -> usize
    ensures count { result ≡ prefix_len is_not_newline bytes.now }
    ensures within { result ≤ length bytes.now }
{
    bytes.iter().take_while(|b| **b != b'\n').count()
}

/// How many newlines the bytes have.
pub fn newlines(bytes: &[u8]) -> usize
    ensures { result ≡ count_by is_newline bytes.now }
{
    bytes.iter().filter(|b| **b == b'\n').count()
}

/// Whether the first byte is a letter or `_`.
pub fn begins_name(bytes: &[u8]) -> bool
    ensures { result ≡ begins_with is_name_start bytes.now }
{
    match bytes {
        [] => false,
        [first, ..] => is_name_start(*first),
    }
}

/// Whether the first byte is a letter, a digit or `_`.
pub fn goes_on(bytes: &[u8]) -> bool
    ensures { result ≡ begins_with is_name_byte bytes.now }
{
    match bytes {
        [] => false,
        [first, ..] => is_name_byte(*first),
    }
}

/// Whether the first byte is a decimal digit.
pub fn begins_number(bytes: &[u8]) -> bool
    ensures { result ≡ begins_with is_ascii_digit bytes.now }
{
    match bytes {
        [] => false,
        [first, ..] => first.is_ascii_digit(),
    }
}
