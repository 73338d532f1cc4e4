// The shares of a symbol's kept trades and crosses.
ghost use Rattle.std.specs.Prelude.{◌≡◌, cond, length, ◌≤◌, ◌*◌};
ghost use Rattle.places.specs.Places.{sum_by};
ghost use Rattle.record.specs.State.{trades_each, kept_at};
ghost use Rattle.record.specs.Rules.{shares_of};

use crate::kept::Kept;
use crate::{CROSSES, Record, TRADES};
use places::SYMBOLS;

impl Record {
    // The sum over what is kept of the symbol at place k: none past the eighth.
    pub fn shares(&self, k: usize) -> u64
        ensures { result ≡ shares_of (kept_at self.now k) }
    {
        if SYMBOLS <= k {
            return 0;
        }
        let trades = k * TRADES;
        let crosses = k * CROSSES;
        shares_on(&self.places[trades..trades + TRADES])
            + shares_on(&self.crosses[crosses..crosses + CROSSES])
    }
}

// The shares of what is kept in these places.
fn shares_on<T: Kept>(places: &[T]) -> u64
    requires { length places.now ≤ trades_each }
    ensures sum { result ≡ sum_by (λ x. cond (T.live x) (T.volume x) 0) places.now }
    ensures most { result ≤ length places.now * 4294967295 }
{
    let mut sum: u64 = 0;
    for x in places {
        sum += u64::from(kept_volume(*x));
    }
    sum
}

fn kept_volume<T: Kept>(x: T) -> u32
    ensures { result ≡ cond (T.live x) (T.volume x) 0 }
{
    if x.live() { x.volume() } else { 0 }
}
