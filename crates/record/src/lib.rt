// The record of eight symbols, 128 places each for trades and 16 for crosses: what a deal does to it, and the shares that it sums to.
//
// Nothing here knows of messages, of a message's number or of orders. A record is changed in place.
#![tactic(auto)]

mod deals;
mod kept;
mod kept_crosses;
mod kept_trades;
mod rules;
mod shares;
mod spots;

ghost use Rattle.std.specs.Prelude.{◌≡◌};
ghost use Rattle.record.specs.State.{no_trades};

use kept::Kept;
use places::SYMBOLS;
pub use spots::{cross_or, stub_of, ticket_of, trade_or};

// Each symbol's own places for trades.
pub const TRADES: usize = 128;

// The same, as searches take it.
pub const EACH: u16 = TRADES as u16;

// The places of all symbols.
pub const PLACES: usize = SYMBOLS * TRADES;

// The same of crosses.
pub const CROSSES: usize = 16;

pub const CROSSES_EACH: u16 = CROSSES as u16;

pub const CROSS_PLACES: usize = SYMBOLS * CROSSES;

// A place for a trade: empty, or a kept one. C keeps this layout and that of a cross, through which no Option goes.
#[repr(C)]
#[derive(Clone, Copy)]
pub struct Trade {
    live: bool,
    number: u32,
    price: u32,
    volume: u32,
}

// A place for a cross: empty, or a kept one. Nothing that is asked reads its price or its type.
#[repr(C)]
#[derive(Clone, Copy)]
pub struct Cross {
    live: bool,
    number: u32,
    volume: u32,
}

// The trades, and what searches read of them: at each place its trade's number and one, or 0 where it is empty. The crosses, and their stubs likewise.
// C lends this memory, and its layout stays: four arrays side by side. The fields stay public, since a narrower type would ask more of a host in Rattle.
#[repr(C)]
#[derive(Clone, Copy)]
pub struct Record {
    pub places: [Trade; PLACES],
    pub tickets: [u64; PLACES],
    pub crosses: [Cross; CROSS_PLACES],
    pub stubs: [u64; CROSS_PLACES],
}

// What is done to a symbol's record. A trade comes as its number, its price and its volume, a cross or its correction as its number and its volume: the rules (`deal_to`, `cross_to`) name the cases so.
#[derive(Clone, Copy)]
pub enum Deal {
    Nothing,
    Records(u32, u32, u32),
    Cancels(u32),
    Crosses(u32, u32),
    Corrects(u32, u32),
}

// A symbol's record loses its mark, and nothing was kept, changed or removed.
#[derive(Clone, Copy, Debug, PartialEq, Eq)]
pub struct Lost;

impl Record {
    // Nothing is kept.
    pub fn new() -> Record
        ensures { result ≡ no_trades }
    {
        let t = Trade::empty();
        let places = [t; PLACES];
        let tickets = [0; PLACES];
        let c = Cross::empty();
        let crosses = [c; CROSS_PLACES];
        let stubs = [0; CROSS_PLACES];
        Record {
            places,
            tickets,
            crosses,
            stubs,
        }
    }
}
