// What is said of a paper: a line for each goal.
//
//     0 clean
//     1 spoilt by goal 3: coinductive
//     4 spoilt by goal 4: a "not" in clause 0, literal 1
//
// One that is refused has its number and the number's sentence.
ghost use Rattle.std.specs.Prelude.{◌≡◌, get_or};
ghost use Rattle.definitions.specs.Desk.{desk};
ghost use Rattle.pen.specs.Pen.{put_all, content};
ghost use Rattle.pen.specs.Goals.{words_from};
ghost use Rattle.certify.specs.Words.{not_words, spoilt_words, certify_words};
ghost use Rattle.certify.specs.Told.{own_words, reason_told, verdict_told, line_told};
ghost use Rattle.paper_checks.specs.Spoilers.{nothing};

use paper_checks::spoilt::spoilers;
use paper_checks::{OwnSpoil, Spoiler, Spoilers};
use pen::Pen;

#[tactic(auto, using(pen::proofs::Putting::put_all_append), unfolding(pen::specs::Pen::put_all))]
fn a_not(pen: &mut Pen, clause: u8, literal: u8)
    ensures { content pen.new ≡ put_all (not_words clause literal) (content pen.old) }
{
    pen.counted(b": a \"not\" in clause ", clause as u64);
    pen.counted(b", literal ", literal as u64);
}

// What a goal spoils by itself.
fn own_spoil(pen: &mut Pen, own: OwnSpoil)
    ensures { content pen.new ≡ put_all (own_words own) (content pen.old) }
{
    match own {
        OwnSpoil::Coinductive => pen.text(b": coinductive"),
        OwnSpoil::Negative { clause, literal } => a_not(pen, clause, literal),
    }
}

#[tactic(auto, using(pen::proofs::Putting::put_nothing))]
fn reason(pen: &mut Pen, own: Option<OwnSpoil>)
    ensures { content pen.new ≡ put_all (reason_told own) (content pen.old) }
{
    match own {
        Some(own) => own_spoil(pen, own),
        None => {}
    }
}

fn own_of(s: &Spoilers, goal: u8) -> Option<OwnSpoil>
    ensures { result ≡ (get_or s.now.told goal nothing).own }
{
    let told = s.told.get(goal as usize).copied();
    told.unwrap_or(Spoiler {
        by: None,
        own: None,
    })
    .own
}

// By which goal another one is spoilt, and what that one spoils by.
#[tactic(auto, using(pen::proofs::Putting::put_all_append), unfolding(pen::specs::Pen::put_all))]
fn spoilt(pen: &mut Pen, by: u8, own: Option<OwnSpoil>)
    ensures { content pen.new ≡ put_all (spoilt_words by (reason_told own)) (content pen.old) }
{
    pen.counted(b" spoilt by goal ", by as u64);
    reason(pen, own);
    pen.text(b"\n");
}

fn verdict(pen: &mut Pen, s: &Spoilers, by: Option<u8>)
    ensures { content pen.new ≡ put_all (verdict_told s.now.told by) (content pen.old) }
{
    match by {
        Some(by) => spoilt(pen, by, own_of(s, by)),
        None => pen.text(b" clean\n"),
    }
}

#[tactic(auto, using(pen::proofs::Putting::put_all_append), unfolding(pen::specs::Pen::put_all, crate::specs::Told::line_told))]
fn goal_line(pen: &mut Pen, s: &Spoilers, goal: usize, spoiler: Spoiler)
    ensures { content pen.new ≡ put_all (line_told s.now.told goal spoiler) (content pen.old) }
{
    pen.number(goal as u64);
    verdict(pen, s, spoiler.by);
}

#[tactic(auto, using(pen::proofs::Goals::words_start, pen::proofs::Goals::words_next))]
fn goal_lines(pen: &mut Pen, s: &Spoilers, goals: &[Spoiler])
    ensures { content pen.new ≡ put_all (words_from (line_told s.now.told) 0 goals.now) (content pen.old) }
{
    for (goal, spoiler) in goals.iter().enumerate() {
        goal_line(pen, s, goal, *spoiler);
    }
}

// What is said of a byte string.
pub(crate) fn say(pen: &mut Pen, bytes: &[u8])
    ensures { content pen.new ≡ put_all (certify_words (desk bytes.now)) (content pen.old) }
{
    match spoilers(bytes) {
        Ok(s) => goal_lines(pen, &s, &s.told[..s.goals]),
        Err(refusal) => pen.refusal(u8::from(refusal)),
    }
}
