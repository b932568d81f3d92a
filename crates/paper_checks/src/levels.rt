// The check: refused as no plain paper, then for its cycles; or accepted, with the least levels.
ghost use Rattle.paper_checks.specs.Profile.{Profiles};

use crate::cycles::cycles;
use crate::paper::plain;
use crate::settle::settle;
use crate::{LeastLevels, Unlevelled};

pub fn levels(bytes: &[u8]) -> Result<LeastLevels, Unlevelled>
    ensures { Profiles bytes.now result }
{
    let book = plain(bytes)?;
    match settle(&book) {
        Some(levels) => Ok(LeastLevels {
            goals: book.goals,
            levels,
        }),
        None => Err(Unlevelled::OnCycles(cycles(&book))),
    }
}
