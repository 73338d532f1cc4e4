// The live orders of eight symbols, 256 places each: what a change does to them, the best of each side, and the ten best prices.
//
// Nothing here knows of messages, of a message's number or of trades. A change is made in place.
#![tactic(auto)]

mod changes;
mod edits;
mod levels;
mod rows;
mod rules;
mod search;
mod store;

ghost use Rattle.std.specs.Prelude.{◌≡◌};
ghost use Rattle.orders.specs.State.{no_order, no_orders};
ghost use Rattle.orders.specs.Promises.{unfit_number};

pub use edits::{Edit, Kind, edit_of};
pub use levels::Level;
use places::SYMBOLS;
pub use rows::{LEVELS, LevelRow, no_rows};

// Each symbol's own places.
pub const ORDERS: usize = 256;

// The same, as searches take it.
pub const EACH: u16 = ORDERS as u16;

// The places of all symbols.
pub const PLACES: usize = SYMBOLS * ORDERS;

// A place for an order: empty, or a live one. C keeps this layout, through which no Option goes.
#[repr(C)]
#[derive(Clone, Copy)]
pub struct Order {
    number: u64,
    price: u32,
    volume: u32,
    live: bool,
    buy: bool,
}

// The orders, and what searches read of them: their numbers, whether each is live, and, for each home of each symbol, how many places from it on may hold an order of it.
// Arrays side by side, since the C interface has them so. The fields stay public, since a narrower type would ask more of a host in Rattle.
#[repr(C)]
#[derive(Clone, Copy)]
pub struct Orders {
    pub places: [Order; PLACES],
    pub numbers: [u64; PLACES],
    pub lives: [bool; PLACES],
    pub spans: [u16; PLACES],
}

// What is done to a symbol's orders. An order comes as its number, whether it buys, its price and its volume: the rules (`apply_to`) and demand 2 name the cases so.
#[derive(Clone, Copy)]
pub enum Change {
    Nothing,
    Add(u64, bool, u32, u32),
    Modify(u64, bool, u32, u32),
    Delete(u64),
    // The order, and the volume that comes off it.
    Execute(u64, u32),
    // The old order's number, then the new order.
    Replace(u64, u64, bool, u32, u32),
}

// Why a change changes nothing: it doesn't fit the orders, or there is no room.
#[derive(Clone, Copy, PartialEq, Eq)]
pub enum Unfit {
    Misfit,
    NoRoom,
}

// Document 01's number of it.
impl From<Unfit> for u8 {
    ghost from_gives = { λ e n. n ≡ unfit_number e };

    fn from(e: Unfit) -> u8 {
        match e {
            Unfit::Misfit => 9,
            Unfit::NoRoom => 10,
        }
    }
}

impl Orders {
    // No order is live.
    pub fn new() -> Orders
        ensures { result ≡ no_orders }
    {
        Orders {
            places: [no_order(); PLACES],
            numbers: [0; PLACES],
            lives: [false; PLACES],
            spans: [0; PLACES],
        }
    }
}

// An empty place, all zero.
pub fn no_order() -> Order
    ensures { result ≡ no_order }
{
    Order {
        live: false,
        buy: false,
        number: 0,
        price: 0,
        volume: 0,
    }
}
