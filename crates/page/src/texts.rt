// What is printed of a message that was passed over, and at the end, as lines under construction.
ghost use Rattle.std.specs.Prelude.{◌≡◌, ◌≤◌, ◌++◌, length};
ghost use Rattle.columns.specs.Columns.{further, rendered};
ghost use Rattle.columns.specs.Held.{room, Adds};
ghost use Rattle.page.specs.Printout.{refusal, end_text, level_columns, quote_text};
ghost use Rattle.page.specs.Laying.{LaysOne};

use crate::lines::{Entry, listing_of};
use crate::printing::{has_no_line, put};
use book::Quote;
use columns::Line;
use markets::Market;
use orders::Level;
use symbols::Symbols;

// A line's sequence number has 32 bits.
const SEQUENCES: u64 = 4294967296;

// What the texts of a stream's messages have in common: the market that sends them, its symbols, and the local second of the day.
#[derive(Clone, Copy)]
pub(crate) struct Setting {
    pub market: Market,
    pub names: Symbols,
    pub second: u32,
}

impl Setting {
    // Lays the text of a message, with its answer and its place in the file, to the start of out, and tells how many bytes it has: the line of a done 100 or 111,
    // with its symbol's name, `R,answer,place` of a refused one and with a bad field `R,4,place,offset`, nothing of any other. The answer is the number that a run noted (`Notes`).
    pub(crate) fn lay_passed(&self, message: &[u8], answer: u8, place: u64, out: &mut [u8]) -> usize
        requires { room ≤ length out.old }
        ensures { LaysOne self.now.market self.now.names message.now answer place self.now.second 0 out.old result out.new }
    {
        let read = wire::decode(self.market, message);
        if answer != 0 {
            let refused = refusal_line(answer, wire::offset_of(read), place);
            return put(refused.bytes(), out);
        }
        let Ok(decoded) = read else {
            return 0;
        };
        if has_no_line(decoded.message) {
            return 0;
        }
        let listing = listing_of(self.names.told(wire::index_of(decoded.message)));
        let entry = Entry {
            listing,
            decoded,
            sequence: (place % SEQUENCES) as u32,
            second: self.second,
        };
        let line = entry.line();
        put(line.bytes(), out)
    }
}

fn refusal_line(answer: u8, offset: usize, place: u64) -> Line
    ensures { result ≡ rendered (refusal answer offset place) }
{
    let mut l = Line::blank();
    l.push(b'R');
    l.number_column(answer as u64);
    l.number_column(place);
    if answer == 4 {
        l.number_column(offset as u64);
    }
    l.push(b'\n');
    l
}

// `E,answer`, and the quote behind it.
pub(crate) fn end_lines(stop: u8, scale: u8, x: Quote) -> Line
    ensures { result ≡ end_text stop ++ quote_text scale x }
{
    let mut l = Line::blank();
    l.push(b'E');
    l.number_column(stop as u64);
    l.push(b'\n');
    quote_line(&mut l, scale, x);
    l
}

// `Q,` with price and size of the bid and then of the ask, prices at the symbol's scale and empty fields for none; or with the number that refuses the quote.
fn quote_line(l: &mut Line, scale: u8, x: Quote)
    ensures { Adds l.old (quote_text scale x) l.new }
{
    l.push(b'Q');
    if x.answer != 0 {
        l.number_column(x.answer as u64);
        l.push(b'\n');
        return;
    }
    level_columns(l, scale, x.bid);
    level_columns(l, scale, x.ask);
    l.push(b'\n');
}

fn level_columns(l: &mut Line, scale: u8, x: Option<Level>)
    ensures { Adds l.old (further (level_columns scale x)) l.new }
{
    match x {
        Some(best) => {
            l.price_column(best.price, scale);
            l.number_column(best.size);
        }
        None => {
            l.put_separator();
            l.put_separator();
        }
    }
}
