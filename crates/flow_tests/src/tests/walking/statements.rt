//! The edges of statements, by hand.

use super::{act, local, one, repeated, tested, two, zero};
use sc_core::{Action, CoreExpr, CoreFirst, CoreStmt, CoreTest};
use sqlite_items::Items;
use std::alloc::{AllocError, Global};
use std::test::Fail;

/// `local 0 && local 0`: two points each.
fn both(alloc: Global) -> Result<CoreExpr, AllocError> {
    let mut tests = Items::new(alloc);
    for _ in 0..2 {
        tests.push(CoreTest {
            of_pointer: false,
            e: local(alloc),
        })?;
    }
    Ok(CoreExpr {
        first: CoreFirst::Every(tests),
        links: Items::new(alloc),
    })
}

/// The test of an `if`: local 0 (`i`), local 0 twice (`&`), or a number (`1`).
fn test_of(alloc: Global, letter: u8) -> Result<CoreExpr, AllocError> {
    match letter {
        b'i' => Ok(local(alloc)),
        b'&' => both(alloc),
        _ => Ok(zero(alloc)),
    }
}

/// A statement without parts: a sync, a barrier, `break`, `continue`, `return 0`, or nothing.
fn simple(alloc: Global, letter: u8) -> CoreStmt {
    match letter {
        b's' => act(alloc, Action::Sync),
        b'b' => act(alloc, Action::Barrier),
        b'B' => CoreStmt::Break,
        b'C' => CoreStmt::Continue,
        b'R' => CoreStmt::Return {
            value: zero(alloc),
            line: 1,
        },
        _ => CoreStmt::Nothing,
    }
}

/// The statement that was made last, or nothing.
fn last(made: &mut Vec<CoreStmt>) -> CoreStmt {
    match made.pop() {
        Some(stmt) => stmt,
        None => CoreStmt::Nothing,
    }
}

/// What the letter makes of the statements so far: `;` the last two in turn; `i`, `&` or `1` an `if` of the last two; `L` a
/// loop of the last three, which stand before its turn, in it and behind it; any other letter a statement without parts.
fn made_by(alloc: Global, made: &mut Vec<CoreStmt>, letter: u8) -> Result<CoreStmt, AllocError> {
    match letter {
        b';' => {
            let second = last(made);
            let first = last(made);
            two(alloc, first, second)
        }
        b'i' | b'&' | b'1' => {
            let test = test_of(alloc, letter)?;
            let no = last(made);
            let yes = last(made);
            tested(alloc, test, yes, no)
        }
        b'L' => {
            let after = last(made);
            let body = last(made);
            let before = last(made);
            repeated(alloc, None, before, body, after)
        }
        _ => Ok(simple(alloc, letter)),
    }
}

/// The statement of these letters, each of which stands behind its parts.
fn spelled(alloc: Global, letters: &[u8]) -> Result<CoreStmt, AllocError> {
    let mut made = Vec::new(alloc);
    for letter in letters {
        let stmt = made_by(alloc, &mut made, *letter)?;
        made.push(stmt)?;
    }
    Ok(last(&mut made))
}

#[test]
fn edges_of_statements(rt: HostRuntime) -> Result<(), Fail> {
    let alloc = rt.alloc();
    let rows: [(&[u8], &[(u32, u32)]); 12] = [
        // `if (i) ;`, whose two edges meet
        (b"--i", &[(0, 1), (1, 2), (2, 3), (3, 4)]),
        // `if (i && i) sync();`, which tests the value again
        (
            b"s-&",
            &[
                (0, 1),
                (1, 2),
                (2, 3),
                (3, 4),
                (3, 6),
                (4, 5),
                (5, 6),
                (6, 7),
                (6, 8),
                (7, 8),
            ],
        ),
        // a body that always returns: `if (i) return 0; else return 0;`
        (b"RRi", &[(0, 1), (1, 2), (2, 3), (3, 4), (3, 5)]),
        // `while (1) sync();`
        (b"-B1s-L", &[(0, 1), (1, 2), (2, 3), (2, 5), (3, 4), (4, 2)]),
        // `while (i) { if (i) continue; sync(); }`
        (
            b"-BiC-is;-L",
            &[
                (0, 1),
                (1, 2),
                (2, 3),
                (3, 4),
                (3, 8),
                (4, 5),
                (5, 6),
                (6, 2),
                (6, 7),
                (7, 2),
            ],
        ),
        // `do { if (i) continue; sync(); } while (i);`
        (
            b"-C-is;-BiL",
            &[
                (0, 1),
                (1, 2),
                (2, 3),
                (3, 4),
                (4, 5),
                (4, 6),
                (5, 6),
                (6, 7),
                (7, 2),
                (7, 8),
            ],
        ),
        // `do { if (i) break; } while (i);`
        (
            b"-B-i-BiL",
            &[
                (0, 1),
                (1, 2),
                (2, 3),
                (3, 4),
                (4, 5),
                (4, 7),
                (5, 6),
                (6, 2),
                (6, 7),
            ],
        ),
        // `for (sync(); ; ) barrier();`
        (b"s-b-L;", &[(0, 1), (1, 2), (2, 3), (3, 4), (4, 3)]),
        // `for (; i; ) sync();`
        (
            b"-Bis-L",
            &[(0, 1), (1, 2), (2, 3), (3, 4), (3, 6), (4, 5), (5, 2)],
        ),
        // `for (; ; barrier()) sync();`
        (b"-sbL", &[(0, 1), (1, 2), (2, 3), (3, 4), (4, 2)]),
        // `for (sync(); i; barrier()) ;`
        (
            b"s-Bi-bL;",
            &[
                (0, 1),
                (1, 2),
                (2, 3),
                (3, 4),
                (4, 5),
                (4, 7),
                (5, 6),
                (6, 3),
            ],
        ),
        // `{ for (; ; ) ; sync(); }`, of which nothing behind the loop is reached
        (b"---Ls;", &[(0, 1), (1, 2), (2, 2), (3, 4)]),
    ];
    for (letters, wanted) in rows {
        let edges = one(alloc, spelled(alloc, letters)?)?;
        assert_eq!(rt; edges.as_slice(), wanted, "{letters:?}");
    }
    Ok(())
}
