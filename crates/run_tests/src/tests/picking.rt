//! Picks by a list and by a seed.

ghost use Rattle.std.specs.Prelude.{◌<◌};

use code_sim::{ListPicks, Picks, SeedPicks};
use std::test::Fail;

fn next_is<P: Picks>(picks: &mut P, moves: u64) -> u64
    requires { 0 < moves }
{
    picks.pick(moves)
}

// The words were computed from the published algorithm by a program of its own, which also gives the published
// words of state 42 and stream 54.
#[test]
fn words_of_seeds(rt: HostRuntime) {
    let rows = [
        (1, [3795398737, 17903413, 3545275701, 194195274]),
        (u64::MAX, [0, 3837872008, 932996374, 1548399547]),
    ];
    for (seed, words) in rows {
        let mut picks = SeedPicks::new(seed);
        for word in words {
            assert_eq!(rt; next_is(&mut picks, 4294967296), word, "of seed {seed}");
        }
    }
}

#[test]
fn a_list_ends_in_zeros(rt: HostRuntime) -> Result<(), Fail> {
    let mut picks = ListPicks::new(vec![in rt.alloc(); 5, 4294967295]?);
    for wanted in [2, 0, 0, 0] {
        assert_eq!(rt; next_is(&mut picks, 3), wanted);
    }
    Ok(())
}
