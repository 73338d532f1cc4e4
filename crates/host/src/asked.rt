// The questions, answered in numbers: the C interface takes no enum, so a side is a mark beside its numbers, and a refusal its answer.
ghost use Rattle.std.specs.Prelude.{◌≡◌};
ghost use Rattle.book.specs.State.{view};
ghost use Rattle.book.specs.Quote.{quote_of, volume_of};
ghost use Rattle.book.specs.Depth.{depth_of};
ghost use Rattle.host.specs.Sides.{side_of, sides_of};

use book::{Book, Depth, Quote, Volume};
use orders::Level;

// One side of a quote: whether there is one, its price and its size.
#[repr(C)]
#[derive(Clone, Copy)]
pub struct Side {
    pub some: bool,
    pub price: u32,
    pub size: u64,
}

#[repr(C)]
#[derive(Clone, Copy)]
pub struct Sides {
    pub answer: u8,
    pub bid: Side,
    pub ask: Side,
}

impl From<Option<Level>> for Side {
    ghost from_gives = { λ level side. side ≡ side_of level };

    fn from(level: Option<Level>) -> Side {
        match level {
            Some(Level { price, size }) => Side {
                some: true,
                price,
                size,
            },
            None => Side {
                some: false,
                price: 0,
                size: 0,
            },
        }
    }
}

impl From<Quote> for Sides {
    ghost from_gives = { λ quote sides. sides ≡ sides_of quote };

    fn from(quote: Quote) -> Sides {
        Sides {
            answer: quote.answer,
            bid: Side::from(quote.bid),
            ask: Side::from(quote.ask),
        }
    }
}

pub fn painterend_quote(book: Book, index: u32) -> Sides
    ensures { result ≡ sides_of (quote_of index (view book)) }
{
    Sides::from(book.quote(index))
}

pub fn painterend_depth(book: Book, index: u32) -> Depth
    ensures { result ≡ depth_of index (view book) }
{
    book.depth(index)
}

pub fn painterend_volume(book: Book, index: u32) -> Volume
    ensures { result ≡ volume_of index (view book) }
{
    book.into_day_volume(index)
}
