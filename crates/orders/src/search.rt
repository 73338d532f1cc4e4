// A symbol's own places, and searching them. Where a search begins and how far it goes is its own affair: it promises what stands at the place that it hands back.
// It does so where the symbol's own places are sound, whatever those of the others are. That is a premise, and no invariant of the type: the C interface hands in a state as it lies in memory.
ghost use Rattle.std.specs.Prelude.{◌≡◌, ◌<◌, ◌≤◌, IfSome, MatchOption};
ghost use Rattle.orders.specs.State.{orders_each, shelf_at};
ghost use Rattle.orders.specs.Deciding.{OrderAt, OrderRoom, Searchable, Finds, place_of, room_in};

use crate::{EACH, ORDERS, Order, Orders, Unfit};
use places::Seat;

// A live order, and the place of its symbol at which it lies.
#[derive(Clone, Copy)]
pub(crate) struct Found {
    pub(crate) place: usize,
    pub(crate) order: Order,
}

impl Orders {
    pub(crate) fn shelf(&self, seat: Seat) -> &[Order; ORDERS]
        ensures { result.now ≡ shelf_at self.now seat.place }
    {
        let (shelves, _) = self.places.as_chunks::<ORDERS>();
        &shelves[seat.place]
    }

    // The live order of a number. What is not live doesn't fit.
    pub(crate) fn live(&self, seat: Seat, number: u64) -> Result<Found, Unfit>
        ensures { Searchable self.now seat.place → Finds number (shelf_at self.now seat.place) result }
    {
        let place = self.find(seat, number).ok_or(Unfit::Misfit)?;
        let order = self.shelf(seat)[place];
        Ok(Found { place, order })
    }

    // Where a live order lies among its symbol's places, if it is there.
    pub(crate) fn find(&self, seat: Seat, number: u64) -> Option<usize>
        ensures within { IfSome result (λ i. i < orders_each) }
        ensures finds { Searchable self.now seat.place → OrderAt number (shelf_at self.now seat.place) (place_of result) }
    {
        seat.shelf(EACH)
            .find(&self.numbers, &self.lives, &self.spans, number)
    }

    // An empty place for an order of this number, the first from its home on, if there is one.
    pub(crate) fn room(&self, seat: Seat, number: u64) -> Option<usize>
        ensures near { MatchOption result (orders_each ≤ room_in self.now seat.place number) (λ i. (i ≡ room_in self.now seat.place number) × (i < orders_each)) }
        ensures empty { Searchable self.now seat.place → OrderRoom (shelf_at self.now seat.place) (place_of result) }
    {
        seat.shelf(EACH).room(&self.lives, number)
    }
}
