//! The written form of the words.

use super::words_of;
use splitc_top::words::{Command, WordsError, read_words};
use std::test::Fail;

fn run(nodes: u32, seed: u64, budget: u64, memory: bool) -> Result<Command, WordsError> {
    Ok(Command::Run {
        nodes,
        seed,
        budget,
        memory,
    })
}

fn explain(nodes: u32, seed: u64, budget: u64) -> Result<Command, WordsError> {
    Ok(Command::Explain {
        nodes,
        seed,
        budget,
    })
}

#[test]
fn the_written_form(rt: HostRuntime) -> Result<(), Fail> {
    let outside = Err(WordsError::Form);
    let rows = [
        ("run", run(4, 1, 100_000, false)),
        ("run -n 2", run(2, 1, 100_000, false)),
        ("run -n 16 -m", run(16, 1, 100_000, true)),
        ("run -m -s 007", run(4, 7, 100_000, true)),
        ("run -b 0 -n 00000000000000000001", run(1, 1, 0, false)),
        (
            "run -s 18446744073709551615",
            run(4, u64::MAX, 100_000, false),
        ),
        ("run -b 1000000", run(4, 1, 1_000_000, false)),
        ("explain", explain(4, 1, 100_000)),
        ("explain -b 3 -s 9 -n 16", explain(16, 9, 3)),
        ("run -n 0", outside),
        ("run -n 17", outside),
        ("run -n 2 -n 2", outside),
        ("run -n2", outside),
        ("run -n=2", outside),
        ("run --n 2", outside),
        ("run --", outside),
        ("run -h", outside),
        ("run -n", outside),
        ("run -n -m", outside),
        ("run -n +2", outside),
        ("run -n 2x", outside),
        ("run -m -m", outside),
        ("run -s 000000000000000000001", outside),
        ("run -s 18446744073709551616", outside),
        ("run -s 99999999999999999999", outside),
        ("run -b 1000001", outside),
        ("run run", outside),
        ("-n 2 run", outside),
        ("go", outside),
        ("explain -m", outside),
        ("explain -n 17", outside),
        ("threads", outside),
        ("", outside),
    ];
    for (line, wanted) in rows {
        let words = words_of(rt.alloc(), line)?;
        assert_eq!(rt;
            read_words(rt.alloc(), words.as_slice()),
            wanted,
            "at {line}"
        );
    }
    Ok(())
}
