// What a call came to, in words.
use forest::any_future_answer::Future;
use forest::make::Making;
use forest::open::Opening;
use forest::searches::Outcome;
use pen::Pen;

// `Searched` has the turns, `Peeked` the index at which it ended and the turns of its last search.
#[derive(Clone, Copy)]
pub(crate) enum Reply {
    NoForest,
    Booked(Making),
    Opened(Opening),
    Searched(Outcome, u64),
    Peeked(Outcome, u64, u64),
    Asked(Future),
}

fn line(pen: &mut Pen, word: &[u8], n: u64) {
    pen.counted(word, n);
    pen.byte(b'\n');
}

pub(crate) fn bad(pen: &mut Pen, n: u64) {
    line(pen, b"bad line ", n);
}

pub(crate) fn turns(pen: &mut Pen, n: u64) {
    line(pen, b" turns ", n);
}

pub(crate) fn index_and_turns(pen: &mut Pen, index: u64, n: u64) {
    pen.counted(b" at ", index);
    turns(pen, n);
}

fn booked(pen: &mut Pen, m: Making) {
    match m {
        Making::Made => pen.text(b"made\n"),
        Making::Refused(n) => line(pen, b"refused ", n as u64),
    }
}

fn opened(pen: &mut Pen, o: Opening) {
    match o {
        Opening::Table(t) => line(pen, b"table ", t),
        Opening::Stopped(n) => line(pen, b"stop ", n as u64),
        Opening::Refused(n) => line(pen, b"refused ", n as u64),
    }
}

fn found(pen: &mut Pen, variant: u16, ambiguous: bool) {
    if ambiguous {
        pen.counted(b"maybe ", variant as u64);
        return;
    }
    pen.counted(b"yes ", variant as u64);
}

fn outcome(pen: &mut Pen, o: Outcome) {
    match o {
        Outcome::Refused(n) => pen.counted(b"refused ", n as u64),
        Outcome::Found(variant, ambiguous) => found(pen, variant, ambiguous),
        Outcome::NoMoreSolutions => pen.text(b"none"),
        Outcome::Floundered => pen.text(b"floundered"),
        Outcome::QuantumExceeded => pen.text(b"again"),
        Outcome::NegativeCycle => pen.text(b"negcycle"),
        Outcome::InvalidAnswer => pen.text(b"invalid"),
        Outcome::Cut => pen.text(b"cut"),
        Outcome::Stopped(n) => pen.counted(b"stop ", n as u64),
    }
}

fn is_refused(o: Outcome) -> bool {
    match o {
        Outcome::Refused(_) => true,
        _ => false,
    }
}

fn searched(pen: &mut Pen, o: Outcome, n: u64) {
    outcome(pen, o);
    if is_refused(o) {
        pen.byte(b'\n');
        return;
    }
    turns(pen, n);
}

fn peeked(pen: &mut Pen, o: Outcome, index: u64, n: u64) {
    outcome(pen, o);
    if is_refused(o) {
        pen.byte(b'\n');
        return;
    }
    index_and_turns(pen, index, n);
}

fn is(pen: &mut Pen, b: bool) {
    if b {
        pen.text(b"true\n");
        return;
    }
    pen.text(b"false\n");
}

fn asked(pen: &mut Pen, f: Future) {
    match f {
        Future::Refused(n) => line(pen, b"refused ", n as u64),
        Future::Found(b) => is(pen, b),
    }
}

pub(crate) fn told(pen: &mut Pen, r: Reply) {
    match r {
        Reply::NoForest => pen.text(b"no forest\n"),
        Reply::Booked(m) => booked(pen, m),
        Reply::Opened(o) => opened(pen, o),
        Reply::Searched(o, n) => searched(pen, o, n),
        Reply::Peeked(o, index, n) => peeked(pen, o, index, n),
        Reply::Asked(f) => asked(pen, f),
    }
}
