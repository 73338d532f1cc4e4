// The ten best prices of a side, best first: each with the exact sum of the shares and the number of orders at it.
ghost use Rattle.std.specs.Prelude.{◌≡◌, replicate};
ghost use Rattle.orders.specs.State.{live_at};
ghost use Rattle.orders.specs.Rows.{levels, no_row, ahead, beyond, row_after, side_rows};
ghost use Rattle.orders.specs.Passing.{alone, met_by, row_step, HasRoom, Grows};

use crate::levels::on_side;
use crate::{ORDERS, Order, Orders};
use places::Seat;

// The prices of a side that are shown.
pub const LEVELS: usize = 10;

// A price with the exact sum of the shares and the number of live orders at it. A row that is not needed is marked, and all zero: 0 is a price too. A mark, since rows cross the C
// interface, and no Option does.
#[repr(C)]
#[derive(Clone, Copy)]
pub struct LevelRow {
    pub used: bool,
    pub price: u32,
    pub size: u64,
    pub orders: u32,
}

impl Orders {
    // The rows of a side of the symbol at place k. None is used past the eighth.
    pub fn rows(&self, k: usize, buy: bool) -> [LevelRow; LEVELS]
        ensures { result ≡ side_rows buy (live_at self.now k) }
    {
        let Some(seat) = Seat::of(k) else {
            return no_rows();
        };
        side_rows(self.shelf(seat), buy)
    }
}

// Ten rows that are not needed.
pub fn no_rows() -> [LevelRow; LEVELS]
    ensures { result ≡ replicate levels no_row }
{
    let row = no_row();
    [row; LEVELS]
}

fn no_row() -> LevelRow
    ensures { result ≡ no_row }
{
    LevelRow {
        used: false,
        price: 0,
        size: 0,
        orders: 0,
    }
}

// Each row is the one after the row before, until there is no further price.
fn side_rows(shelf: &[Order; ORDERS], buy: bool) -> [LevelRow; LEVELS]
    ensures { result ≡ side_rows buy shelf.now }
{
    let mut rows = no_rows();
    let mut before = no_row();
    for i in 0..LEVELS {
        let row = row_after(shelf, buy, before);
        if !row.used {
            return rows;
        }
        rows[i] = row;
        before = row;
    }
    rows
}

// The best price beyond a row, with what stands at it.
fn row_after(shelf: &[Order; ORDERS], buy: bool, before: LevelRow) -> LevelRow
    ensures { result ≡ row_after buy before shelf.now }
{
    let mut row = no_row();
    for o in shelf {
        row = row_with(row, *o, buy, before);
    }
    row
}

// One order more: it counts where it stands on the side, beyond the row before.
#[tactic(auto, unfolding(crate::specs::Passing::row_step))]
fn row_with(row: LevelRow, o: Order, buy: bool, before: LevelRow) -> LevelRow
    requires { HasRoom row }
    ensures steps { result ≡ row_step buy before o row }
    ensures grows { Grows row result }
{
    if !on_side(o, buy) {
        return row;
    }
    if !is_beyond(before, o.price, buy) {
        return row;
    }
    met(row, o.price, o.volume, buy)
}

// At the row's price it adds; at a better one, or where there is no row yet, it begins one.
fn met(row: LevelRow, price: u32, volume: u32, buy: bool) -> LevelRow
    requires { HasRoom row }
    ensures meets { result ≡ met_by buy price volume row }
    ensures grows { Grows row result }
{
    if !row.used {
        return begun(price, volume);
    }
    if price == row.price {
        return LevelRow {
            used: true,
            price,
            size: row.size + volume as u64,
            orders: row.orders + 1,
        };
    }
    if is_ahead(price, row.price, buy) {
        return begun(price, volume);
    }
    row
}

// An order by itself.
fn begun(price: u32, volume: u32) -> LevelRow
    ensures { result ≡ alone price volume }
{
    LevelRow {
        used: true,
        price,
        size: volume as u64,
        orders: 1,
    }
}

// Strictly worse than the row before; before the first row every price is.
fn is_beyond(before: LevelRow, price: u32, buy: bool) -> bool
    ensures { result ≡ beyond buy before price }
{
    if before.used {
        is_ahead(before.price, price, buy)
    } else {
        true
    }
}

// Strictly better: a higher buy, a lower sell. Said by `<` alone: an Ordering from `cmp` would have to be asked by the side just so.
fn is_ahead(price: u32, than: u32, buy: bool) -> bool
    ensures { result ≡ ahead buy price than }
{
    if buy { than < price } else { price < than }
}
