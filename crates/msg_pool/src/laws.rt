//! Laws of the pool.

ghost use Rattle.msg_pool.specs.Laws.{ListsAreWalkedBothWays};

/// Each list of a pool, walked from its head, is the list of all filtered, and walked from its tail the same reversed.
pub fn lists_are_walked_both_ways()
    ensures { ListsAreWalkedBothWays }
{}
