// The step over what reading answered: in place, as the run takes it, and by value.
ghost use Rattle.std.specs.Prelude.{◌≡◌};
ghost use Rattle.feed.specs.Reader.{numbered};
ghost use Rattle.wire.specs.Outcome.{told_by};
ghost use Rattle.wire.specs.Reading.{decoded_as};
ghost use Rattle.book.specs.State.{view};
ghost use Rattle.book.specs.Promises.{Steps, Settles, InTurn};
ghost use Rattle.book.specs.Refused.{refused_number};
ghost use Rattle.book.specs.Step.{act_on, meant, step_of};

use crate::acts::{Act, Effect, act_of, change_of, deal_of};
use crate::refused::Refused;
use crate::{Book, Done};
use places::Seat;
use symbols::TurnError;
use wire::{Decoded, Message, ReadError};

impl Book {
    // In place. What is refused leaves the state as it was, or a stale symbol.
    pub(crate) fn pass(&mut self, read: Result<Decoded, ReadError>) -> Result<(), Refused>
        ensures { Steps self.old (step_of (view self.old) (decoded_as read)) (record { book = self.new; answer = told_by refused_number result }) }
    {
        let d = read?;
        match act_of(d.message) {
            Act::Clear(index, next) => self.restart(index, next),
            Act::Numbered(index, number, effect) => self.pass_numbered(index, number, effect),
        }
    }

    fn pass_numbered(&mut self, index: u32, number: u32, effect: Effect) -> Result<(), Refused>
        ensures { Steps self.old (act_on (view self.old) (numbered index number effect)) (record { book = self.new; answer = told_by refused_number result }) }
    {
        let seat = self.due(index, number)?;
        self.enact(seat, change_of(effect), deal_of(effect))
    }

    // The seat of a numbered message's symbol, where it is the message's turn. One above the expected number makes the symbol stale; other refusals change nothing.
    fn due(&mut self, index: u32, number: u32) -> Result<Seat, TurnError>
        ensures { InTurn self.old index number self.new result }
    {
        let Some(seat) = self.symbols.seat(index) else {
            return Err(TurnError::Unknown);
        };
        match self.symbols.turn_at(seat.place, number) {
            Ok(()) => Ok(seat),
            Err(TurnError::Gap) => {
                self.symbols.make_stale(seat.place);
                Err(TurnError::Gap)
            }
            Err(e) => Err(e),
        }
    }

    // By value, in the form that document 01 asks of the step and of the methods; each method does on its own copy what `enact` does in place.
    pub(crate) fn step(self, read: Result<Decoded, ReadError>) -> Done
        ensures { Steps self (step_of (view self) (decoded_as read)) result }
    {
        let Ok(d) = read else {
            return Done {
                book: self,
                answer: wire::number_of(read),
            };
        };
        self.act(d.message)
    }

    // What a message that was read does.
    fn act(self, m: Message) -> Done
        ensures { Steps self (act_on (view self) (meant m)) result }
    {
        match act_of(m) {
            Act::Clear(index, next) => self.clear(index, next),
            Act::Numbered(index, number, effect) => self.meet(index, number, effect),
        }
    }

    // A numbered message: is its symbol registered, is it in its turn, and then what it does.
    fn meet(mut self, index: u32, number: u32, effect: Effect) -> Done
        ensures { Steps self (act_on (view self) (numbered index number effect)) result }
    {
        match self.due(index, number) {
            Ok(seat) => self.take(seat, effect),
            Err(e) => self.done(Err(Refused::from(e))),
        }
    }

    fn take(self, seat: Seat, effect: Effect) -> Done
        ensures { Settles self seat.place effect result }
    {
        match effect {
            Effect::Add(order, buy, price, volume) => self.add(seat, order, buy, price, volume),
            Effect::Modify(order, buy, price, volume) => self.modify(
                seat, order, buy, price, volume,
            ),
            Effect::Delete(order) => self.delete(seat, order),
            Effect::Execute(order, volume, deal) => self.execute(seat, order, volume, deal),
            Effect::Replace(old, order, buy, price, volume) => self.replace(
                seat, old, order, buy, price, volume,
            ),
            Effect::Other(deal) => self.other(seat, deal),
        }
    }
}
