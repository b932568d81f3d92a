// forest.rs, lent: a goal is opened, a table searched or peeked at, in the forest where it lies.
ghost use Rattle.std.specs.Prelude.{◌≡◌};
ghost use Rattle.forest.specs.Open.{OpenSays};
ghost use Rattle.forest.specs.Searches.{SearchSays, PeekSays};
ghost use Rattle.in_place.specs.Joined.{opened, searched, peeked};

use forest::Forest;
use forest::open::Opening;
pub use forest::searches::{PeekReply, SearchReply};

// The table of a goal. Refused with 20 and 9 in this order.
pub fn open(f: &mut Forest, goal: u64) -> Opening
    ensures { OpenSays f.old goal (opened result f.new) }
{
    f.open_goal(goal)
}

// A search for the answer at an index of a table, by at most so many turns. Refused with 20, 10, 11 and 12 in this order.
pub fn search(f: &mut Forest, table: u64, index: u64, limit: u64) -> SearchReply
    ensures { SearchSays f.old table index limit (searched result f.new) }
{
    f.search(table, index, limit)
}

// A peek from an index of a table on, by at most so many rounds and so many turns for each search. Refused with 20, 10, 11 and 12 in this
// order.
pub fn peek(f: &mut Forest, table: u64, index: u64, rounds: u64, limit: u64) -> PeekReply
    ensures { PeekSays f.old table index rounds limit (peeked result f.new) }
{
    f.peek(table, index, rounds, limit)
}
