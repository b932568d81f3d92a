// What a forest holds as one line of text, so that two programs can be held against each other: the clock, the mark and every table
// with its answers and its strands, in the order in which they are kept. The book isn't said, nor what stands at free places.
//
//     state clock C mark M tables N{ | table}
//     table   = tI gGOAL fFLOUNDERED mMODE AK{ answer} QK{ strand}
//     answer  = (vV D[goals] aAMBIGUOUS)
//     strand  = (vV oOUTSIZED aAMBIGUOUS S[literals] D[goals] tANSWERTIME F[literal@time,...] SEL pLASTPURSUED)
//     literal = +GOAL/WANT, +GOAL/LOW-HIGH or -GOAL, with a final ! if outsized
//     SEL     = s- or sSUBGOALINDEX:TABLE:ANSWERINDEX
//
// The bytes go to a pen whose buffer no dump fills.
ghost use Rattle.std.specs.Prelude.{◌<◌};

use book::Literal;
use book::access::is_ranged;
use control::ensure_root_answer::strand_in_hand;
use forest::shown::Shown;
use pen::Pen;
use sizes::{BOOK_LITERALS, MOST_CLAUSES, MOST_GOALS, MOST_LITERALS, wide};
use strands::literals::is_negative;
use strands::{Answer, Selected, Strand};

// No dump is longer: 256 strands of at most 320 bytes, 256 answers of at most 64 and 64 tables of at most 64, with the line's head.
pub(crate) const LONGEST_DUMP: usize = 131072;

fn flag(b: bool) -> u64 {
    if b { 1 } else { 0 }
}

fn signed(pen: &mut Pen, l: Literal) {
    if is_negative(l) {
        pen.counted(b"-", l.goal as u64);
        return;
    }
    pen.counted(b"+", l.goal as u64);
    pen.counted(b"/", l.want as u64);
    if is_ranged(l) {
        pen.counted(b"-", l.high as u64);
        return;
    }
}

fn literal(pen: &mut Pen, l: Literal) {
    signed(pen, l);
    if l.kind % 2 == 1 {
        pen.byte(b'!');
        return;
    }
}

// What stands before the element i of a list.
fn comma(pen: &mut Pen, i: usize) {
    if i == 0 {
        return;
    }
    pen.byte(b',');
}

fn goals(pen: &mut Pen, d: [u8; MOST_LITERALS], count: u8) {
    let n = (count as usize).min(MOST_LITERALS);
    pen.text(b" D[");
    for (i, goal) in d[..n].iter().enumerate() {
        comma(pen, i);
        pen.number(*goal as u64);
    }
    pen.byte(b']');
}

fn answer(pen: &mut Pen, x: Answer) {
    let d = x.delayed;
    pen.counted(b" (v", x.variant as u64);
    goals(pen, d, x.delayed_count);
    pen.counted(b" a", flag(x.ambiguous));
    pen.byte(b')');
}

fn literals(pen: &mut Pen, s: Strand) {
    let n = (s.literal_count as usize).min(MOST_LITERALS);
    pen.text(b" S[");
    for i in 0..n {
        comma(pen, i);
        literal(pen, s.literals[i]);
    }
    pen.byte(b']');
}

fn floundered(pen: &mut Pen, s: Strand) {
    let n = (s.floundered_count as usize).min(MOST_LITERALS);
    pen.text(b" F[");
    for i in 0..n {
        comma(pen, i);
        literal(pen, s.floundered[i]);
        pen.counted(b"@", s.floundered_time[i] as u64);
    }
    pen.byte(b']');
}

fn selected(pen: &mut Pen, k: Selected) {
    match k {
        Selected::Nothing => pen.text(b" s-"),
        Selected::Subgoal {
            index,
            table,
            answer,
        } => {
            pen.counted(b" s", index as u64);
            pen.counted(b":", table as u64);
            pen.counted(b":", answer as u64)
        }
    }
}

// A strand's words before its literals.
fn begun(pen: &mut Pen, variant: u16, outsized: bool, ambiguous: bool) {
    pen.counted(b" (v", variant as u64);
    pen.counted(b" o", flag(outsized));
    pen.counted(b" a", flag(ambiguous));
}

// And those behind them.
fn ended(pen: &mut Pen, k: Selected, time: u64) {
    selected(pen, k);
    pen.counted(b" p", time);
    pen.byte(b')');
}

fn strand(pen: &mut Pen, s: Strand, time: u64) {
    let d = s.delayed;
    let k = s.selected;
    begun(pen, s.variant, s.outsized, s.ambiguous);
    literals(pen, s);
    goals(pen, d, s.delayed_count);
    pen.counted(b" t", s.answer_time as u64);
    floundered(pen, s);
    ended(pen, k, time);
}

fn mode(complete: u8) -> u8 {
    if complete != 0 { b'c' } else { b'a' }
}

fn long(n: u16) -> u64 {
    n as u64
}

// A table's words before its answers.
fn head(pen: &mut Pen, i: usize, goal: u8, floundered: u8, complete: u8, answers: u16) {
    pen.counted(b" | t", i as u64);
    pen.counted(b" g", goal as u64);
    pen.counted(b" f", floundered as u64);
    pen.text(b" m");
    pen.byte(mode(complete));
    pen.counted(b" A", answers as u64);
}

fn opening(pen: &mut Pen, clock: u64, mark: u8, count: usize) {
    pen.counted(b"state clock ", clock);
    pen.counted(b" mark ", mark as u64);
    pen.counted(b" tables ", count as u64);
}

// The strand at a place. The clauses' arrays are lent by a struct's own, and so have one lifetime.
fn in_hand<'a>(
    s: Strand,
    waits: u8,
    wants: u16,
    clause_variant: &'a [u16; MOST_CLAUSES],
    clause_flags: &'a [u8; MOST_CLAUSES],
    clause_len: &'a [u8; MOST_CLAUSES],
    literal_kind: &'a [u8; BOOK_LITERALS],
    literal_goal: &'a [u16; BOOK_LITERALS],
    literal_want: &'a [u32; BOOK_LITERALS],
) -> Strand {
    strand_in_hand(
        s,
        waits,
        wants,
        clause_variant,
        clause_flags,
        clause_len,
        literal_kind,
        literal_goal,
        literal_want,
    )
}

// The dump, without a newline. The checker knows of it that it ends and stays in the buffer; what it writes is shown by the run beside the
// Rust alone (`tools/differential`).
pub(crate) fn dump(pen: &mut Pen, f: Shown) {
    opening(pen, f.clock, f.mark, f.count);
    for i in 0..f.count.min(MOST_GOALS) {
        head(
            pen,
            i,
            f.goal[i],
            f.floundered[i],
            f.complete[i],
            f.answer_len[i],
        );
        let mut q = f.answer_tail[i];
        for _answer in 0..f.answer_len[i] {
            q = f.answer_next[wide(q)];
            answer(pen, f.answers[wide(q)]);
        }
        pen.counted(b" Q", long(f.len[i]));
        let mut p = f.tail[i];
        for _strand in 0..f.len[i] {
            p = f.next[wide(p)];
            let k = wide(p);
            let s = in_hand(
                f.strands[k],
                f.waits[k],
                f.wants[k],
                &f.clause_variant,
                &f.clause_flags,
                &f.clause_len,
                &f.literal_kind,
                &f.literal_goal,
                &f.literal_want,
            );
            strand(pen, s, f.time[k]);
        }
    }
}
