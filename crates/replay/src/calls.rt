// The calls of a script on the forest at hand: each by itself, by value or lent by `&mut`, or those that wait together. A function that
// calls the library stays by itself (`inline(never)`): put into its caller, it adds its copies of the forest to the caller's part of the
// stack.
use crate::line::Line;
use crate::words::Reply;
use batch::calls::NUMBERS;
use forest::Forest;
use forest::any_future_answer::any_future_answer;
use forest::make::{Making, make};
use forest::open::open;
use forest::searches::{peek, search};
use forest::serve_calls::serve_calls;

// What stands where there is no forest yet, before the first book.
#[inline(never)]
pub(crate) fn no_forest() -> Forest {
    make(b"", 0).forest
}

// A book's forest, by the old entry or as the desk takes it; and the one that a refused book leaves.
#[inline(never)]
pub(crate) fn take_book(f: &mut Forest, bytes: &[u8], clock_limit: u64, desk: bool) -> Making {
    if desk {
        f.make_anew_at_desk(bytes, clock_limit)
    } else {
        f.make_anew(bytes, clock_limit)
    }
}

#[inline(never)]
fn opened(f: &mut Forest, l: Line, is_lent: bool) -> Reply {
    let r = if is_lent {
        in_place::by_value::open(*f, l.a)
    } else {
        open(*f, l.a)
    };
    *f = r.forest;
    Reply::Opened(r.opening)
}

#[inline(never)]
fn searched(f: &mut Forest, l: Line, is_lent: bool) -> Reply {
    let r = if is_lent {
        in_place::by_value::search(*f, l.a, l.b, l.c)
    } else {
        search(*f, l.a, l.b, l.c)
    };
    *f = r.forest;
    Reply::Searched(r.outcome, r.turns)
}

#[inline(never)]
fn peeked(f: &mut Forest, l: Line, is_lent: bool) -> Reply {
    let r = if is_lent {
        in_place::by_value::peek(*f, l.a, l.b, l.c, l.d)
    } else {
        peek(*f, l.a, l.b, l.c, l.d)
    };
    *f = r.forest;
    Reply::Peeked(r.outcome, r.index, r.turns)
}

#[inline(never)]
fn asked(f: &mut Forest, l: Line) -> Reply {
    Reply::Asked(any_future_answer(*f, l.a, l.b, l.c))
}

pub(crate) fn call(f: &mut Forest, l: Line, is_lent: bool) -> Reply {
    match l.call {
        2 => opened(f, l, is_lent),
        3 => searched(f, l, is_lent),
        4 => peeked(f, l, is_lent),
        _ => asked(f, l),
    }
}

// As many calls as wait, handed over together.
#[inline(never)]
pub(crate) fn served(
    f: &mut Forest,
    waiting: u64,
    calls: &[u64; NUMBERS],
    replies: &mut [u64; NUMBERS],
) {
    *f = serve_calls(*f, waiting, calls, replies);
}
