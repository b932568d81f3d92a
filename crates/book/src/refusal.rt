// Why a paper is refused (document 01, "Refused by the input", and the change requests 3, 10, 12 and 13), each refusal once.
ghost use Rattle.std.specs.Prelude.{◌≡◌};
ghost use Rattle.book.specs.Refusals.{number};

#[derive(Clone, Copy, PartialEq, Eq, Debug)]
pub enum Refusal {
    PartMissing, // a command, an operand or the end is missing
    UnknownCommand, // a byte that is no command
    OutOfPlace, // a clause before a goal, or a literal before a clause
    UnknownFlag, // a flag bit that says nothing
    TooMany, // a 65th goal, a 257th clause or a 9th literal of a clause
    NoSuchGoal, // a literal names no goal
    BehindEnd, // bytes after the end
    NoGoal, // a book without a goal
    CrossedRange, // a range with its low end above its high end
    RepeatedClause, // a goal has the same clause twice
    NotPlain, // a variant, a want or a flag that is not 0, or a range
    NotLevelled, // a cycle through "not"
    NotText, // text that is not of the form that a book is written in
}

// By its number, which document 01 and the change requests give it.
impl From<Refusal> for u8 {
    ghost from_gives = { λ refusal n. n ≡ number refusal };

    fn from(refusal: Refusal) -> u8 {
        match refusal {
            Refusal::PartMissing => 1,
            Refusal::UnknownCommand => 2,
            Refusal::OutOfPlace => 3,
            Refusal::UnknownFlag => 4,
            Refusal::TooMany => 5,
            Refusal::NoSuchGoal => 6,
            Refusal::BehindEnd => 7,
            Refusal::NoGoal => 8,
            Refusal::CrossedRange => 32,
            Refusal::RepeatedClause => 36,
            Refusal::NotPlain => 37,
            Refusal::NotLevelled => 38,
            Refusal::NotText => 39,
        }
    }
}
