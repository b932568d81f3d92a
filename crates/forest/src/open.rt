// `iter_answers`, its first statement: a goal's table is found or made. A forest in which its strands have no room stops with 22.
ghost use Rattle.std.specs.Prelude.{◌≡◌};
ghost use Rattle.forest.specs.Open.{opening_of, opened_to, OpenSays};

use crate::Forest;
use crate::serve_calls::first_serving;
use batch::calls::Said;
use batch::serve::serve_open;

#[derive(Clone, Copy)]
pub enum Opening {
    Refused(u8),
    Table(u64),
    Stopped(u8),
}

#[derive(Clone, Copy)]
pub struct Opened {
    pub opening: Opening,
    pub forest: Forest,
}

// What an open came to is one of the first three; the others are said of other calls.
fn opening_of(said: Said) -> Opening
    ensures { result ≡ opening_of said }
{
    match said {
        Said::Refused(n) => Opening::Refused(n),
        Said::Table(t) => Opening::Table(t),
        Said::Stopped(n) => Opening::Stopped(n),
        _ => Opening::Refused(0),
    }
}

impl Forest {
    // The table of a goal, made in the forest where it lies. Refused with 20 and 9 in this order.
    pub fn open_goal(&mut self, goal_asked: u64) -> Opening
        ensures { OpenSays self.old goal_asked (opened_to result self.new) }
    {
        let first = first_serving(self);
        let s = serve_open(first, &self.book, &mut self.stores, goal_asked);
        self.carry(s.course);
        opening_of(s.said)
    }
}

// The same, of a forest by value.
pub fn open(f: Forest, goal_asked: u64) -> Opened
    ensures { OpenSays f goal_asked result }
{
    let mut forest = f;
    let opening = forest.open_goal(goal_asked);
    Opened { opening, forest }
}
