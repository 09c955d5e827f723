//! Formats.

ghost use Rattle.std.specs.Prelude.{◌≡◌, ◌+◌, ◌<◌, ◌≤◌, length, drop, IfOk, OnOk, [], ◌∷◌, ◌++◌, false};
ghost use Rattle.sc_lexer.specs.Format.{is_plain, is_escape, escape_value, format_end, unescaped};

use crate::refusal::Refused;
use sc_base::OutOfMemory;
use std::alloc::Global;

/// How many bytes the format takes at the front of the bytes, which begin with its opening quote.
#[tactic(auto, using(crate::proofs::Walks::formats))]
pub fn format_size(bytes: &[u8]) -> Result<usize, Refused>
    requires { 0 < length bytes.now }
    ensures { result ≡ format_end false 1 (drop 1 bytes.now) }
{
    let mut escaped = false;
    for i in 1..bytes.len() {
        let byte = bytes[i];
        if escaped {
            if !is_escape(byte) {
                return Err(Refused::BadToken(i - 1));
            }
            escaped = false;
        } else if byte == b'"' {
            return Ok(i + 1);
        } else if byte == b'\\' {
            escaped = true;
        } else if !is_plain(byte) {
            return Err(Refused::BadToken(i));
        }
    }
    Err(Refused::BadToken(if escaped {
        bytes.len() - 1
    } else {
        bytes.len()
    }))
}

/// The bytes between a format's quotes with the escapes replaced by what they stand for.
#[tactic(auto, using(crate::proofs::Walks::escapes))]
pub fn unescaped(alloc: Global, coded: &[u8]) -> Result<Vec<u8>, OutOfMemory>
    ensures { IfOk result (λ text. text.items ≡ unescaped false coded.now) }
{
    let mut text = Vec::new(alloc);
    let mut escaped = false;
    for byte in coded {
        if escaped {
            push(&mut text, escape_value(*byte))?;
            escaped = false;
        } else if *byte == b'\\' {
            escaped = true;
        } else {
            push(&mut text, *byte)?;
        }
    }
    Ok(text)
}

fn push(text: &mut Vec<u8>, byte: u8) -> Result<(), OutOfMemory>
    ensures { OnOk result (text.new.items ≡ text.old.items ++ byte ∷ []) }
{
    match text.push(byte) {
        Ok(()) => Ok(()),
        Err(_) => Err(OutOfMemory),
    }
}

/// Whether the byte stands for itself in a format.
fn is_plain(byte: u8) -> bool
    ensures { result ≡ is_plain byte }
{
    byte >= b' ' && byte <= b'~' && byte != b'"' && byte != b'\\'
}

/// Whether the byte makes an escape after a backslash.
fn is_escape(byte: u8) -> bool
    ensures { result ≡ is_escape byte }
{
    byte == b'n' || byte == b't' || byte == b'\\' || byte == b'"'
}

/// What the byte stands for after a backslash.
fn escape_value(byte: u8) -> u8
    ensures { result ≡ escape_value byte }
{
    if byte == b'n' {
        b'\n'
    } else if byte == b't' {
        b'\t'
    } else {
        byte
    }
}
