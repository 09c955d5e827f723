//! Moving bytes between memory and the buffers of a call.

ghost use Rattle.std.specs.Prelude.{◌≡◌, ◌+◌, ◌≤◌, ◌++◌, min, length, take, vec_len};
ghost use Rattle.std.specs.Vec.{vec_capacity};

/// Copies the first of the bytes to the front of `into`, at most `piece` of them, and answers how many.
pub(crate) fn give(bytes: &[u8], into: &mut [u8], piece: usize) -> usize
    ensures count { result ≡ min (min (length into.old) piece) (length bytes.now) }
    ensures front { take result into.new ≡ take result bytes.now }
    ensures len { length into.new ≡ length into.old }
{
    let n = into.len().min(piece).min(bytes.len());
    into[..n].copy_from_slice(&bytes[..n]);
    n
}

/// Appends bytes for which there is room.
pub(crate) fn keep(held: &mut Vec<u8>, bytes: &[u8])
    requires { vec_len held.old + length bytes.now ≤ vec_capacity held.old }
    ensures items { held.new.items ≡ held.old.items ++ bytes.now }
    ensures capacity { vec_capacity held.old ≤ vec_capacity held.new }
{
    if held.extend_from_slice(bytes).is_err() {
        unreachable!("there is room");
    }
}
