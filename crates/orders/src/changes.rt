// A change of a symbol's orders, at place k: find, decide, store.
ghost use Rattle.orders.specs.Deciding.{Judges};
ghost use Rattle.orders.specs.Promises.{Changes, Clears};

use crate::rules::{Verdict, order_of};
use crate::{Change, Orders, Unfit};
use places::Seat;

impl Orders {
    // A change that doesn't fit, or finds no room, leaves every order as it was. There is no place past the eighth.
    pub fn change(&mut self, k: usize, c: Change) -> Result<(), Unfit>
        ensures { Changes self.old k c self.new result }
    {
        let seat = Seat::of(k).ok_or(Unfit::Misfit)?;
        let v = self.judged(seat, c)?;
        self.settle(seat, v);
        Ok(())
    }

    // All orders of a symbol go.
    pub fn clear(&mut self, k: usize)
        ensures { Clears self.old k self.new }
    {
        if let Some(seat) = Seat::of(k) {
            self.empty(seat);
        }
    }

    // What is decided of a change.
    fn judged(&self, seat: Seat, c: Change) -> Result<Verdict, Unfit>
        ensures { Judges self.now seat.place c result }
    {
        match c {
            Change::Nothing => Ok(Verdict::Keeps),
            Change::Add(number, buy, price, volume) => {
                self.judge_add(seat, order_of(number, buy, price, volume))
            }
            Change::Modify(number, buy, price, volume) => {
                self.judge_modify(seat, order_of(number, buy, price, volume))
            }
            Change::Delete(number) => self.judge_delete(seat, number),
            Change::Execute(number, volume) => self.judge_execute(seat, number, volume),
            Change::Replace(old, number, buy, price, volume) => {
                self.judge_replace(seat, old, order_of(number, buy, price, volume))
            }
        }
    }
}
