// A change of a symbol's record, at place k, in place.
ghost use Rattle.std.specs.Prelude.{◌≡◌, is_err};
ghost use Rattle.record.specs.Rules.{cross_of};
ghost use Rattle.record.specs.Promises.{Deals};

use crate::kept::Kept;
use crate::rules::{keep, replace};
use crate::{CROSSES, Cross, Deal, Lost, Record, TRADES, Trade};
use places::SYMBOLS;

impl Record {
    // Does what a deal says of the symbol at place k. Past the eighth place nothing is kept, and there is no mark to keep.
    pub fn deal(&mut self, k: usize, d: Deal) -> Result<(), Lost>
        ensures { Deals self.old k d (record { trades = self.new; lost = is_err result }) }
    {
        if SYMBOLS <= k {
            return Err(Lost);
        }
        // Where the symbol's own places begin.
        let trades = k * TRADES;
        let crosses = k * CROSSES;
        match d {
            Deal::Nothing => Ok(()),
            Deal::Records(number, price, volume) => {
                let t = Trade {
                    live: true,
                    number,
                    price,
                    volume,
                };
                keep(
                    &mut self.places[trades..trades + TRADES],
                    &mut self.tickets[trades..trades + TRADES],
                    t,
                )
            }
            Deal::Cancels(number) => {
                let gone = Trade::empty();
                replace(
                    &mut self.places[trades..trades + TRADES],
                    &mut self.tickets[trades..trades + TRADES],
                    number,
                    gone,
                )
            }
            Deal::Crosses(number, volume) => {
                let c = cross_of(number, volume);
                keep(
                    &mut self.crosses[crosses..crosses + CROSSES],
                    &mut self.stubs[crosses..crosses + CROSSES],
                    c,
                )
            }
            Deal::Corrects(number, volume) => {
                let c = cross_of(number, volume);
                replace(
                    &mut self.crosses[crosses..crosses + CROSSES],
                    &mut self.stubs[crosses..crosses + CROSSES],
                    number,
                    c,
                )
            }
        }
    }
}

fn cross_of(number: u32, volume: u32) -> Cross
    ensures { result ≡ cross_of number volume }
{
    Cross {
        live: true,
        number,
        volume,
    }
}
