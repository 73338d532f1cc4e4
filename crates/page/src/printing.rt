// Printing a line into a lent buffer.
ghost use Rattle.std.specs.Prelude.{◌≡◌, ◌≤◌, length};
ghost use Rattle.wire.specs.Message.{type_of};
ghost use Rattle.book.specs.State.{view};
ghost use Rattle.page.specs.Printing.{printed, has_no_line, laid, line_of, told, Appends};

use crate::LineError;
use crate::lines::Entry;
use book::Book;
use wire::{Decoded, Message, PLAIN};

// The last second of a day.
pub(crate) const LAST_SECOND: u32 = 86399;

// Prints the line of a message with its byte array to the start of out. The caller gives the feed's sequence number and the local second of the day.
// Refused, it leaves every byte of out.
//
// The message and its byte array come apart: by a rule of the project the array stands beside the message, and `line_of` speaks of both.
pub fn line(
    book: Book,
    m: Message,
    plain: [u8; PLAIN],
    sequence: u32,
    second: u32,
    out: &mut [u8],
) -> Result<usize, LineError>
    ensures { printed result out.new ≡ line_of (view book).market (told book m) m plain sequence second out.old }
{
    if has_no_line(m) {
        return Err(LineError::BadType);
    }
    if let Some(offset) = wire::bad_field(book.market(), m, plain) {
        return Err(LineError::BadField(offset));
    }
    let Some(listing) = book.symbol(wire::index_of(m)) else {
        return Err(LineError::NoSymbol);
    };
    if LAST_SECOND < second {
        return Err(LineError::BadSecond);
    }
    let entry = Entry {
        listing,
        decoded: Decoded { message: m, plain },
        sequence,
        second,
    };
    let text = entry.line();
    emit(text.bytes(), out)
}

// Only an add and a cross have a line.
#[tactic(auto, unfolding(crate::specs::Printing::has_no_line))]
pub(crate) fn has_no_line(m: Message) -> bool
    ensures { result ≡ has_no_line (type_of m) }
{
    !matches!(m, Message::Add { .. } | Message::Cross { .. })
}

// A text to the start of out, where there is room for it.
pub(crate) fn emit(text: &[u8], out: &mut [u8]) -> Result<usize, LineError>
    ensures { printed result out.new ≡ laid text.now out.old }
{
    let n = text.len();
    if out.len() < n {
        return Err(LineError::NoRoom);
    }
    Ok(put(text, out))
}

// A text to the start of out, and how many bytes it has.
pub(crate) fn put(text: &[u8], out: &mut [u8]) -> usize
    requires { length text.now ≤ length out.old }
    ensures { Appends text.now 0 out.old result out.new }
{
    let n = text.len();
    out[..n].copy_from_slice(text);
    n
}
