// What is stored at a spot, for a caller that stores in the arrays itself: what is to lie there, or again what lies there where the place is none; and what searches read of it.
ghost use Rattle.std.specs.Prelude.{◌≡◌, cond, ltb};
ghost use Rattle.places.specs.Tickets.{ticket};
ghost use Rattle.record.specs.State.{trades_each, crosses_each, trade_number, trade_live, cross_number, cross_live};

use crate::rules::ticket;
use crate::{CROSSES, Cross, TRADES, Trade};

pub fn trade_or(i: usize, t: Trade, lies: Trade) -> Trade
    ensures { result ≡ cond (ltb i trades_each) t lies }
{
    if i < TRADES { t } else { lies }
}

pub fn cross_or(i: usize, c: Cross, lies: Cross) -> Cross
    ensures { result ≡ cond (ltb i crosses_each) c lies }
{
    if i < CROSSES { c } else { lies }
}

pub fn ticket_of(t: Trade) -> u64
    ensures { result ≡ ticket trade_number trade_live t }
{
    ticket(t)
}

// A cross's ticket is called its stub.
pub fn stub_of(c: Cross) -> u64
    ensures { result ≡ ticket cross_number cross_live c }
{
    ticket(c)
}
