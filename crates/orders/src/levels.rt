// The best price of a side, and the exact sum of the shares at it.
ghost use Rattle.std.specs.Prelude.{◌≡◌};
ghost use Rattle.places.specs.Places.{sum_by};
ghost use Rattle.orders.specs.State.{live_at};
ghost use Rattle.orders.specs.Levels.{counts, best_step, best_of, shares_at, level_of};

use crate::{ORDERS, Order, Orders};
use places::Seat;

// The best price of a side with the exact sum of the shares at it: one side of a quote, if it has an order.
#[derive(Clone, Copy, PartialEq, Eq)]
pub struct Level {
    pub price: u32,
    pub size: u64,
}

impl Orders {
    // The level of a side of the symbol at place k. There is none past the eighth.
    pub fn level(&self, k: usize, buy: bool) -> Option<Level>
        ensures { result ≡ level_of buy (live_at self.now k) }
    {
        let seat = Seat::of(k)?;
        let shelf = self.shelf(seat);
        let price = best(shelf, buy)?;
        let size = shares_at(shelf, buy, price);
        Some(Level { price, size })
    }
}

fn best(shelf: &[Order; ORDERS], buy: bool) -> Option<u32>
    ensures { result ≡ best_of buy shelf.now }
{
    let mut best = None;
    for o in shelf {
        best = better(best, *o, buy);
    }
    best
}

fn shares_at(shelf: &[Order; ORDERS], buy: bool, price: u32) -> u64
    ensures { result ≡ sum_by (shares_at buy price) shelf.now }
{
    let mut sum: u64 = 0;
    for o in shelf {
        sum += shares(*o, buy, price) as u64;
    }
    sum
}

// Whether an order is live on a side.
pub(crate) fn on_side(o: Order, buy: bool) -> bool
    ensures { result ≡ counts buy o }
{
    o.live && o.buy == buy
}

// The highest buy, the lowest sell.
#[tactic(auto, unfolding(crate::specs::Levels::best_step))]
fn better(b: Option<u32>, o: Order, buy: bool) -> Option<u32>
    ensures { result ≡ best_step buy o b }
{
    if !on_side(o, buy) {
        return b;
    }
    match b {
        None => Some(o.price),
        Some(p) => Some(if buy { p.max(o.price) } else { p.min(o.price) }),
    }
}

#[tactic(auto, unfolding(crate::specs::Levels::shares_at))]
fn shares(o: Order, buy: bool, price: u32) -> u32
    ensures { result ≡ shares_at buy price o }
{
    if on_side(o, buy) && o.price == price {
        o.volume
    } else {
        0
    }
}
