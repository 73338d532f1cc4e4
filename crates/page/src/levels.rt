// The ten best prices of each side of a symbol, a line for each, into a lent buffer.
ghost use Rattle.std.specs.Prelude.{◌≡◌, ◌≤◌, [], ◌∷◌, length};
ghost use Rattle.book.specs.State.{view};
ghost use Rattle.columns.specs.Columns.{number, further, rendered};
ghost use Rattle.columns.specs.Held.{Adds};
ghost use Rattle.page.specs.Printing.{printed, laid, Appends};
ghost use Rattle.page.specs.Levels.{letter_d, side_byte, row_columns, row_text, rows_text, depth_text, levels_text, side_room, levels_room};

use crate::LineError;
use crate::lines::listing_of;
use crate::printing::{emit, put};
use book::{Book, Depth};
use columns::{Line, ROOM};
use orders::{LEVELS, LevelRow};

// Room for twenty lines.
const LEVELS_ROOM: usize = 2 * LEVELS * ROOM;

// A line for each of the ten bids and the ten asks of the symbol with this index, or one line with the number that refuses them.
//
// They are laid into a buffer of their own, and copied where out has room for them all. Refused, it leaves every byte of out.
pub fn lay_levels(book: Book, index: u32, out: &mut [u8]) -> Result<usize, LineError>
    ensures out_after { printed result out.new ≡ laid (levels_text (view book) index) out.old }
    ensures fits { length (levels_text (view book) index) ≤ levels_room }
{
    let s = listing_of(book.symbol(index));
    let mut space = [0u8; LEVELS_ROOM];
    let text: &mut [u8] = &mut space;
    let n = lay_depth(book.depth(index), s.scale, text);
    emit(&text[..n], out)
}

// Lays the lines of both sides, or of the refusal, to the start of out, and tells how many bytes they have.
fn lay_depth(d: Depth, scale: u8, out: &mut [u8]) -> usize
    requires { levels_room ≤ length out.old }
    ensures appends { Appends (depth_text scale d) 0 out.old result out.new }
    ensures fits { length (depth_text scale d) ≤ levels_room }
{
    if d.answer != 0 {
        let refused = refused_line(d.answer);
        return put(refused.bytes(), out);
    }
    let n = lay_rows(d.bids, true, scale, out);
    n + lay_rows(d.asks, false, scale, &mut out[n..])
}

// `D,answer`.
fn refused_line(answer: u8) -> Line
    ensures { result ≡ rendered (letter_d ∷ number answer ∷ []) }
{
    let mut l = Line::blank();
    l.push(b'D');
    l.number_column(answer as u64);
    l.push(b'\n');
    l
}

// Lays the lines of a side's rows to the start of out, and tells how many bytes they have.
fn lay_rows(rows: [LevelRow; LEVELS], buy: bool, scale: u8, out: &mut [u8]) -> usize
    requires { side_room ≤ length out.old }
    ensures appends { Appends (rows_text buy scale rows) 0 out.old result out.new }
    ensures fits { length (rows_text buy scale rows) ≤ side_room }
{
    let mut n = 0;
    for row in rows {
        let line = row_line(buy, scale, row);
        n += put(line.bytes(), &mut out[n..]);
    }
    n
}

// `D`, the side's letter, and the row's columns.
fn row_line(buy: bool, scale: u8, row: LevelRow) -> Line
    ensures { result ≡ row_text buy scale row }
{
    let mut l = Line::blank();
    l.push(b'D');
    l.bytes_column(&[side_byte(buy)]);
    row_columns(&mut l, scale, row);
    l.push(b'\n');
    l
}

fn side_byte(buy: bool) -> u8
    ensures { result ≡ side_byte buy }
{
    if buy { b'B' } else { b'S' }
}

// Price at the symbol's scale, size and number of orders, or three empty fields. A row has the mark `used` and no Option, since C reads it.
fn row_columns(l: &mut Line, scale: u8, row: LevelRow)
    ensures { Adds l.old (further (row_columns row.used scale row)) l.new }
{
    if !row.used {
        l.put_separator();
        l.put_separator();
        l.put_separator();
        return;
    }
    l.price_column(row.price, scale);
    l.number_column(row.size);
    l.number_column(row.orders as u64);
}
