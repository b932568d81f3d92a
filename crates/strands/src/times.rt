// lib.rs: time stamps, minimums and the answer mode. The methods go by value and return the new value.
ghost use Rattle.std.specs.Prelude.{◌≡◌, min};
ghost use Rattle.definitions.specs.{minimums_MAX, take_minimums, minimum_of_pos_and_neg, is_complete};
ghost use Rattle.strands.specs.Times.{incremented, minimums, mode};

#[derive(Clone, Copy, PartialEq, Eq, PartialOrd, Ord)]
pub struct TimeStamp {
    pub clock: u64,
}

#[derive(Clone, Copy)]
pub struct Minimums {
    pub positive: TimeStamp,
    pub negative: TimeStamp,
}

#[derive(Clone, Copy, PartialEq, Eq)]
pub enum AnswerMode {
    Complete,
    Ambiguous,
}

impl TimeStamp {
    pub const MAX: TimeStamp = TimeStamp {
        clock: 18446744073709551615,
    };

    // At its end the clock stays: the forest stops a push long before that.
    pub fn increment(self) -> TimeStamp
        ensures { result.clock ≡ incremented self.clock }
    {
        TimeStamp {
            clock: self.clock.saturating_add(1),
        }
    }

    // The earlier of two, std's `min`.
    pub fn earlier(self, other: TimeStamp) -> TimeStamp
        ensures { result.clock ≡ min self.clock other.clock }
    {
        self.min(other)
    }
}

impl Minimums {
    pub const MAX: Minimums = Minimums {
        positive: TimeStamp::MAX,
        negative: TimeStamp::MAX,
    };

    // `Minimums::MAX` is the definitions': what an entry starts with, before it meets a cycle.
    pub fn no_cycle() -> Minimums
        ensures { minimums result ≡ minimums_MAX }
    {
        Minimums::MAX
    }

    pub fn take_minimums(self, other: Minimums) -> Minimums
        ensures { minimums result ≡ take_minimums (minimums self) (minimums other) }
    {
        let p = self.positive;
        let n = self.negative;
        let positive = p.earlier(other.positive);
        let negative = n.earlier(other.negative);
        Minimums { positive, negative }
    }

    pub fn minimum_of_pos_and_neg(self) -> TimeStamp
        ensures { result.clock ≡ minimum_of_pos_and_neg (minimums self) }
    {
        let p = self.positive;
        p.earlier(self.negative)
    }
}

pub fn is_complete(m: AnswerMode) -> bool
    ensures { result ≡ is_complete (mode m) }
{
    m == AnswerMode::Complete
}
