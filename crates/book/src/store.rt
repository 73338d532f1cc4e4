// What came of a message, put into the state in place.
ghost use Rattle.feed.specs.Reader.{clearing};
ghost use Rattle.wire.specs.Outcome.{told_by};
ghost use Rattle.book.specs.State.{view};
ghost use Rattle.book.specs.Promises.{Steps, Enacts};
ghost use Rattle.book.specs.Refused.{refused_number};
ghost use Rattle.book.specs.Step.{act_on};

use crate::Book;
use crate::refused::Refused;
use orders::Change;
use places::Seat;
use record::Deal;
use symbols::TurnError;

impl Book {
    // Done, with what goes with it into the record and its number used; or it doesn't fit the orders, and the symbol becomes stale.
    pub(crate) fn enact(&mut self, seat: Seat, change: Change, deal: Deal) -> Result<(), Refused>
        ensures { Enacts self.old seat.place change deal (record { book = self.new; answer = told_by refused_number result }) }
    {
        let k = seat.place;
        match self.orders.change(k, change) {
            Ok(()) => {
                let lost = self.trades.deal(k, deal).is_err();
                self.symbols.count(k, lost);
                Ok(())
            }
            Err(e) => {
                self.symbols.make_stale(k);
                Err(Refused::from(e))
            }
        }
    }

    // A symbol clear: no orders, and a new start of the numbers.
    pub(crate) fn restart(&mut self, index: u32, next: u32) -> Result<(), Refused>
        ensures { Steps self.old (act_on (view self.old) (clearing index next)) (record { book = self.new; answer = told_by refused_number result }) }
    {
        let Some(k) = self.symbols.place_of(index) else {
            return Err(Refused::Untimely(TurnError::Unknown));
        };
        self.symbols.restart(k, next);
        self.orders.clear(k);
        Ok(())
    }
}
