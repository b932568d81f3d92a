// What refuses a search or a peek before its limits are looked at.
ghost use Rattle.std.specs.Prelude.{◌≡◌};
ghost use Rattle.batch.specs.Refusal.{refusal_in};

use search::course::Course;
use stores::Stores;
use stores::numbers::flag_at;

// The number: 20, 10, 11; or 0.
pub fn refusal(c: Course, stores: &Stores, table: u64, index: u64) -> u8
    ensures { result ≡ refusal_in c.mark c.count stores.now.tables.floundered stores.now.answers.places.len table index }
{
    if c.mark > 0 {
        return 20;
    }
    if table >= c.count as u64 {
        return 10;
    }
    let t = (table % 256) as u8;
    if flag_at(&stores.tables.floundered, t) {
        return 0;
    }
    if index > u64::from(stores.answers.places.len[t as usize]) {
        return 11;
    }
    0
}
