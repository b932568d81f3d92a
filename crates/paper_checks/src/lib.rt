// The levelled profile (change request 12): whether a paper is plain and levelled, so that what is promised of such books holds of it, and
// the least level of each of its goals.
#![tactic(auto)]

mod asks;
mod closure;
mod cycles;
mod edges;
pub mod levels;
mod matrix;
pub mod paper;
pub mod place;
mod plain;
mod settle;
mod spoil;
pub mod spoilt;

ghost use Rattle.std.specs.Prelude.{◌≡◌};
ghost use Rattle.paper_checks.specs.declared.Unlevelled.TheVariants.{Refused};

use book::Refusal;
use sizes::MOST_GOALS;

// Of a paper that is plain and levelled: levels[g] is the least level of goal g, for each of so many goals, and 0 behind the last one.
#[derive(Clone, Copy)]
pub struct LeastLevels {
    pub goals: usize,
    pub levels: [u8; MOST_GOALS],
}

// Why a paper has no levels: it is refused as no plain paper, or a cycle leads through "not", on which just the marked goals are.
#[derive(Clone, Copy)]
pub enum Unlevelled {
    Refused(Refusal),
    OnCycles([bool; MOST_GOALS]),
}

impl From<Refusal> for Unlevelled {
    ghost from_gives = { λ refusal u. u ≡ Refused refusal };

    fn from(refusal: Refusal) -> Unlevelled {
        Unlevelled::Refused(refusal)
    }
}

// What is not plain.
#[derive(Clone, Copy, PartialEq, Eq, Debug)]
pub enum Fault {
    Flag,
    Variant,
    Want,
    Range,
}

// The first place of a paper that is not plain, and what is not plain there. A clause is counted from 0 within its goal, and a literal
// within its clause.
#[derive(Clone, Copy, PartialEq, Eq, Debug)]
pub enum NotPlain {
    Goal {
        goal: usize,
        fault: Fault,
    },
    Clause {
        goal: usize,
        clause: usize,
        fault: Fault,
    },
    Literal {
        goal: usize,
        clause: usize,
        literal: usize,
        fault: Fault,
    },
}

// What a goal spoils by itself (change request 2): it is coinductive; or it has a "not", the first of which is that literal of that
// clause, counted from 0 within the clause and the goal.
#[derive(Clone, Copy, PartialEq, Eq, Debug)]
pub enum OwnSpoil {
    Coinductive,
    Negative { clause: u8, literal: u8 },
}

// Of one goal: by which goal it is spoilt, and what it spoils by itself.
#[derive(Clone, Copy, PartialEq, Eq, Debug)]
pub struct Spoiler {
    pub by: Option<u8>,
    pub own: Option<OwnSpoil>,
}

impl Spoiler {
    // Spoilt by none.
    const NOTHING: Spoiler = Spoiler {
        by: None,
        own: None,
    };
}

// Which goals' yes can be printed: those that nothing spoils, of so many goals. Behind the last one nothing is told.
#[derive(Clone, Copy)]
pub struct Spoilers {
    pub goals: usize,
    pub told: [Spoiler; MOST_GOALS],
}
