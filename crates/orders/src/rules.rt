// What a change does to a symbol's orders: whether it fits, and what is stored where it does.
ghost use Rattle.std.specs.Prelude.{◌≡◌, true};
ghost use Rattle.orders.specs.Deciding.{Judges};
ghost use Rattle.orders.specs.Rules.{order_of};
ghost use Rattle.orders.specs.declared.Change.{Change};

use crate::{Order, Orders, Unfit, no_order};
use places::Seat;

// Of a change that fits: no place changes; an order goes to a place, or an empty one where the order there goes; or a place is emptied, and then the order goes to another.
#[derive(Clone, Copy)]
pub(crate) enum Verdict {
    Keeps,
    Lands(usize, Order),
    Moves(usize, usize, Order),
}

impl Orders {
    // An order that is live already doesn't fit.
    pub(crate) fn judge_add(&self, seat: Seat, o: Order) -> Result<Verdict, Unfit>
        ensures { o.live ≡ true → Judges self.now seat.place (Change.Add o.number o.buy o.price o.volume) result }
    {
        if self.find(seat, o.number).is_some() {
            return Err(Unfit::Misfit);
        }
        let j = self.room(seat, o.number).ok_or(Unfit::NoRoom)?;
        Ok(Verdict::Lands(j, o))
    }

    // Of a live order, on its own side.
    pub(crate) fn judge_modify(&self, seat: Seat, o: Order) -> Result<Verdict, Unfit>
        ensures { Judges self.now seat.place (Change.Modify o.number o.buy o.price o.volume) result }
    {
        let x = self.live(seat, o.number)?;
        if x.order.buy != o.buy {
            return Err(Unfit::Misfit);
        }
        let next = Order {
            price: o.price,
            volume: o.volume,
            ..x.order
        };
        Ok(Verdict::Lands(x.place, next))
    }

    pub(crate) fn judge_delete(&self, seat: Seat, number: u64) -> Result<Verdict, Unfit>
        ensures { Judges self.now seat.place (Change.Delete number) result }
    {
        let x = self.live(seat, number)?;
        Ok(Verdict::Lands(x.place, no_order()))
    }

    // What is left stands at the order's own price; where nothing is left, the order is gone.
    pub(crate) fn judge_execute(
        &self,
        seat: Seat,
        number: u64,
        volume: u32,
    ) -> Result<Verdict, Unfit>
        ensures { Judges self.now seat.place (Change.Execute number volume) result }
    {
        let x = self.live(seat, number)?;
        if x.order.volume < volume {
            return Err(Unfit::Misfit);
        }
        if x.order.volume == volume {
            return Ok(Verdict::Lands(x.place, no_order()));
        }
        let rest = Order {
            volume: x.order.volume - volume,
            ..x.order
        };
        Ok(Verdict::Lands(x.place, rest))
    }

    // The old order goes first, so the new number may lie at its place too. The new order goes where there is room for its number; where every place is live, and where its number
    // stays, it takes the old one's place.
    pub(crate) fn judge_replace(&self, seat: Seat, old: u64, o: Order) -> Result<Verdict, Unfit>
        ensures { o.live ≡ true → Judges self.now seat.place (Change.Replace old o.number o.buy o.price o.volume) result }
    {
        let x = self.live(seat, old)?;
        let i = x.place;
        if x.order.buy != o.buy {
            return Err(Unfit::Misfit);
        }
        if let Some(j) = self.find(seat, o.number) {
            if i == j {
                return Ok(Verdict::Lands(i, o));
            }
            return Err(Unfit::Misfit);
        }
        match self.room(seat, o.number) {
            Some(free) => Ok(Verdict::Moves(i, free, o)),
            None => Ok(Verdict::Lands(i, o)),
        }
    }
}

// A live order.
pub(crate) fn order_of(number: u64, buy: bool, price: u32, volume: u32) -> Order
    ensures { result ≡ order_of number buy price volume }
{
    Order {
        live: true,
        buy,
        number,
        price,
        volume,
    }
}
