// The state of a market's eight symbols, with their orders and their trade records, and what a message does to it.
//
// Outside, a state is taken by value and the next one is handed back; inside, it is changed in place. Its fields are private: nobody outside puts one together by hand.
#![tactic(auto)]

mod acts;
mod depth;
mod effects;
mod naming;
mod quote;
mod refused;
mod step;
mod store;
mod walk;

ghost use Rattle.std.specs.Prelude.{◌≡◌};
ghost use Rattle.book.specs.State.{view, Fresh};

pub use depth::Depth;
use markets::Market;
pub use naming::told_number;
use orders::Orders;
pub use quote::{Quote, Volume};
use record::Record;
use symbols::Symbols;
pub use walk::{Moved, Noted, Ran};

// The state. The market is kept as its Market ID, since no enum goes out to a host.
#[repr(C)]
#[derive(Clone, Copy)]
pub struct Book {
    symbols: Symbols,
    orders: Orders,
    trades: Record,
    market: u16,
}

// The next state, and document 01's number: its methods return both whatever the answer is (`Steps`), and the layout is C's.
#[repr(C)]
#[derive(Clone, Copy)]
pub struct Done {
    pub book: Book,
    pub answer: u8,
}

impl Book {
    // A state of a market, with no symbol.
    pub fn new(market: Market) -> Book
        ensures { Fresh market result }
    {
        let symbols = Symbols::new();
        let orders = Orders::new();
        let trades = Record::new();
        Book {
            symbols,
            orders,
            trades,
            market: u16::from(market),
        }
    }

    // The market that the state was made for.
    pub fn market(&self) -> Market
        ensures { result ≡ (view self.now).market }
    {
        markets::market_of(self.market)
    }
}
