//! What stands between tokens: blanks and comments.

ghost use Rattle.std.specs.Prelude.{◌≡◌, ◌≤◌, length, drop, IfSome};
ghost use Rattle.sc_lexer.specs.Gap.{gap_at, comment_end, only_gaps};

use crate::class::{is_blank, line_bytes};

/// How many bytes the blank or the comment at the front takes, and 0 where there is none. None stands for a
/// comment without an end.
#[tactic(auto, using(crate::proofs::NumberLaws::sizes))]
pub fn gap_at(bytes: &[u8]) -> Option<usize>
    ensures size { result ≡ gap_at bytes.now }
    ensures within { IfSome result (λ n. n ≤ length bytes.now) }
{
    let Some(first) = bytes.first() else {
        return Some(0);
    };
    if is_blank(*first) {
        return Some(1);
    }
    if bytes.starts_with(b"//") {
        return Some(line_bytes(bytes));
    }
    if bytes.starts_with(b"/*") {
        return comment_end(bytes);
    }
    Some(0)
}

/// The place after the first `*/` behind the first two bytes.
#[tactic(auto, using(crate::proofs::Walks::comments))]
fn comment_end(bytes: &[u8]) -> Option<usize>
    requires { 2 ≤ length bytes.now }
    ensures end { result ≡ comment_end 2 (drop 2 bytes.now) }
    ensures within { IfSome result (λ n. n ≤ length bytes.now) }
{
    for i in 2..bytes.len() {
        if bytes[i..].starts_with(b"*/") {
            return Some(i + 2);
        }
    }
    None
}

/// Whether the line has only blanks and comments that end on it.
pub fn only_gaps(line: &[u8]) -> bool
    ensures { result ≡ only_gaps (length line.now) line.now }
{
    let mut rest = line;
    for _turn in 0..line.len() {
        let size = gap_at(rest).unwrap_or(0);
        if size == 0 {
            return rest.is_empty();
        }
        rest = &rest[size..];
    }
    rest.is_empty()
}
