// Drives the stores by lists of operations at every limit, and writes what they hold.
#![tactic(auto)]

mod queues; // queues.rt: the strand store
mod taking; // taking.rt: a strand taken within its queue
mod kept; // kept.rt: the answers
mod frames; // frames.rt: tables, stack, delayed goals
mod words; // words.rt: what is written

fn main(rt: HostRuntime) {
    let to = rt.stdout();
    queues::rotation(to);
    queues::limit(to);
    queues::first_strands(to);
    taking::one_queue(to);
    taking::last_of_256(to);
    taking::two_queues(to);
    kept::outcomes(to);
    kept::limit(to);
    frames::delays(to);
    frames::entries(to);
    frames::goals(to);
}
