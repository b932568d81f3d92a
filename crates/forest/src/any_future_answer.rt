// `any_future_answer`: whether a table has, or may come to have, an answer of one variant.
ghost use Rattle.forest.specs.AnyFutureAnswer.{FutureSays};

use crate::Forest;
use batch::serve::all_small;
use stores::queue::any_strand;
use stores::table::any_answer;

#[derive(Clone, Copy)]
pub enum Future {
    Refused(u8),
    Found(bool),
}

// The answers from an index on, and then the queue. Refused with 10 alone, on a marked forest too.
pub fn any_future_answer(f: Forest, table: u64, index: u64, variant: u64) -> Future
    ensures { FutureSays f table index variant result }
{
    if table >= f.stores.tables.count as u64 {
        return Future::Refused(10);
    }
    // Numbers are copied and lent: where a part of the forest is lent, the compiler copies all of it first.
    let answer_variants = f.stores.answers.variant;
    let variants = f.stores.strands.variant;
    if variant > 65535 {
        all_small(&variants);
        all_small(&answer_variants);
        return Future::Found(false);
    }
    let t = (table % 256) as u8;
    let v = (variant % 65536) as u16;
    let from = if index > 256 { 256 } else { index as usize };
    let ring = f.stores.answers.places;
    let keys = f.stores.answers.key;
    if any_answer(
        &ring.next,
        &ring.tail,
        &ring.len,
        t,
        from,
        &answer_variants,
        v,
        &keys,
    ) {
        return Future::Found(true);
    }
    let queue = f.stores.strands.places;
    let times = f.stores.strands.time;
    let any = any_strand(
        &queue.next,
        &queue.tail,
        &queue.len,
        t,
        &variants,
        v,
        &times,
    );
    Future::Found(any)
}
