// The methods, as document 01 names them: a message in its turn meets its symbol, at its seat. Each returns the next state and the answer.
ghost use Rattle.std.specs.Prelude.{◌≡◌};
ghost use Rattle.feed.specs.Reader.{clearing};
ghost use Rattle.wire.specs.Outcome.{told_by};
ghost use Rattle.book.specs.State.{view};
ghost use Rattle.book.specs.Promises.{Steps, Settles, Enacts};
ghost use Rattle.book.specs.Refused.{refused_number};
ghost use Rattle.book.specs.Step.{act_on};

use crate::acts::Effect;
use crate::refused::Refused;
use crate::{Book, Done};
use orders::Change;
use places::Seat;
use record::Deal;

impl Book {
    pub(crate) fn add(self, seat: Seat, order: u64, buy: bool, price: u32, volume: u32) -> Done
        ensures { Settles self seat.place (Effect.Add order buy price volume) result }
    {
        self.enacted(seat, Change::Add(order, buy, price, volume), Deal::Nothing)
    }

    pub(crate) fn modify(self, seat: Seat, order: u64, buy: bool, price: u32, volume: u32) -> Done
        ensures { Settles self seat.place (Effect.Modify order buy price volume) result }
    {
        self.enacted(
            seat,
            Change::Modify(order, buy, price, volume),
            Deal::Nothing,
        )
    }

    pub(crate) fn delete(self, seat: Seat, order: u64) -> Done
        ensures { Settles self seat.place (Effect.Delete order) result }
    {
        self.enacted(seat, Change::Delete(order), Deal::Nothing)
    }

    pub(crate) fn execute(self, seat: Seat, order: u64, volume: u32, deal: Deal) -> Done
        ensures { Settles self seat.place (Effect.Execute order volume deal) result }
    {
        self.enacted(seat, Change::Execute(order, volume), deal)
    }

    pub(crate) fn replace(
        self,
        seat: Seat,
        old: u64,
        order: u64,
        buy: bool,
        price: u32,
        volume: u32,
    ) -> Done
        ensures { Settles self seat.place (Effect.Replace old order buy price volume) result }
    {
        self.enacted(
            seat,
            Change::Replace(old, order, buy, price, volume),
            Deal::Nothing,
        )
    }

    // A numbered message that changes no order.
    pub(crate) fn other(self, seat: Seat, deal: Deal) -> Done
        ensures { Settles self seat.place (Effect.Other deal) result }
    {
        self.enacted(seat, Change::Nothing, deal)
    }

    pub(crate) fn clear(mut self, index: u32, next: u32) -> Done
        ensures { Steps self (act_on (view self) (clearing index next)) result }
    {
        let r = self.restart(index, next);
        self.done(r)
    }

    fn enacted(mut self, seat: Seat, change: Change, deal: Deal) -> Done
        ensures { Enacts self seat.place change deal result }
    {
        let r = self.enact(seat, change, deal);
        self.done(r)
    }

    // In document 01's number.
    pub(crate) fn done(self, r: Result<(), Refused>) -> Done
        ensures { result ≡ record { book = self; answer = told_by refused_number r } }
    {
        Done {
            book: self,
            answer: wire::number_of(r),
        }
    }
}
