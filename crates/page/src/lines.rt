// The lines: the columns of each type, in document 01's order.
ghost use Rattle.std.specs.Prelude.{◌≡◌};
ghost use Rattle.columns.specs.Columns.{joined, further, rendered};
ghost use Rattle.columns.specs.Held.{HoldsText, Adds};
ghost use Rattle.page.specs.Columns.{listing_of, name_of, opening, add_columns, cross_columns, columns_of};

use columns::Line;
use symbols::{Listing, NAME};
use wire::{Decoded, Head, Message, PLAIN};

// The firm of an add stands first in its byte array.
const FIRM: usize = 5;

// A message with what its line shows of it: its byte array, what is told of its symbol, the feed's sequence number and the local second of the day.
#[derive(Clone, Copy)]
pub(crate) struct Entry {
    pub listing: Listing,
    pub decoded: Decoded,
    pub sequence: u32,
    pub second: u32,
}

impl Entry {
    // The line, to its line feed.
    pub(crate) fn line(self) -> Line
        ensures { let e = self in result ≡ rendered (columns_of e.listing e.decoded.message e.decoded.plain e.sequence e.second) }
    {
        let mut l = self.columns();
        l.push(b'\n');
        l
    }

    fn columns(self) -> Line
        ensures { let e = self in HoldsText (joined (columns_of e.listing e.decoded.message e.decoded.plain e.sequence e.second)) result }
    {
        let scale = self.listing.scale;
        match self.decoded.message {
            Message::Add {
                head,
                order,
                price,
                volume,
                side,
            } => {
                let mut l = self.opened(100, head);
                add_columns(
                    &mut l,
                    scale,
                    order,
                    price,
                    volume,
                    side,
                    self.decoded.plain,
                );
                l
            }
            Message::Cross {
                head,
                cross,
                price,
                volume,
                class,
            } => {
                let mut l = self.opened(111, head);
                cross_columns(&mut l, scale, cross, price, volume, class);
                l
            }
            _ => Line::blank(),
        }
    }

    // Every line begins with type, sequence number, time, symbol, symbol number.
    fn opened(self, number: u64, head: Head) -> Line
        ensures { let e = self in HoldsText (joined (opening number e.listing head e.sequence e.second)) result }
    {
        let mut l = Line::blank();
        l.put_number(number);
        l.number_column(self.sequence as u64);
        l.clock_column(self.second, head.nanos);
        l.bytes_column(name_of(&self.listing));
        l.number_column(head.number as u64);
        l
    }
}

// What is told of a symbol, and of one that isn't registered no name and scale 0. A function and no From: neither Option nor Listing is a type of this crate.
pub(crate) fn listing_of(told: Option<Listing>) -> Listing
    ensures { result ≡ listing_of told }
{
    told.unwrap_or(Listing {
        name: [0u8; NAME],
        len: 0,
        scale: 0,
    })
}

// The name as it is kept.
fn name_of(s: &Listing) -> &[u8]
    ensures { result.now ≡ name_of s.now }
{
    &s.name[..s.len.min(s.name.len())]
}

fn add_columns(
    l: &mut Line,
    scale: u8,
    order: u64,
    price: u32,
    volume: u32,
    side: u8,
    plain: [u8; PLAIN],
)
    ensures { Adds l.old (further (add_columns scale order price volume side plain)) l.new }
{
    l.number_column(order);
    l.price_column(price, scale);
    l.number_column(volume as u64);
    l.bytes_column(&[side]);
    l.text_column(&plain[..FIRM]);
    l.number_column(0);
}

fn cross_columns(l: &mut Line, scale: u8, cross: u32, price: u32, volume: u32, class: u8)
    ensures { Adds l.old (further (cross_columns scale cross price volume class)) l.new }
{
    l.number_column(cross as u64);
    l.price_column(price, scale);
    l.number_column(volume as u64);
    l.text_column(&[class]);
}
