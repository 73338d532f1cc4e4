// A new book, and its symbols.
ghost use Rattle.std.specs.Prelude.{◌≡◌};
ghost use Rattle.book.specs.State.{view};
ghost use Rattle.book.specs.Promises.{Steps};
ghost use Rattle.book.specs.Registering.{register_of};
ghost use Rattle.host.specs.Made.{MadeFor};

use book::{Book, Done};
use markets::{Market, market_of};

// A new book, and whether the number that was given names a market: a mark, since the C interface takes no enum.
#[repr(C)]
#[derive(Clone, Copy)]
pub struct Made {
    pub book: Book,
    pub known: bool,
}

// A new book of the market with this Market ID, as source 002 has them. A number that names none is told, and the book is then one of NYSE.
pub fn painterend_new(market: u16) -> Made
    ensures { MadeFor market result }
{
    Made {
        book: Book::new(market_of(market)),
        known: Market::try_from(market).is_ok(),
    }
}

pub fn painterend_register(book: Book, index: u32, name: &[u8], scale: u8) -> Done
    ensures { Steps book (register_of (view book) index name.now scale) result }
{
    book.register(index, name, scale)
}
