// The calls of host under their names in C. Each makes the call of that name, and promises what it does. They stay beside host's: C needs the names in an archive, and `demands` speaks of host.
#![tactic(auto)]

ghost use Rattle.std.specs.Prelude.{◌≡◌};
ghost use Rattle.book.specs.State.{view};
ghost use Rattle.book.specs.Promises.{Steps};
ghost use Rattle.book.specs.Registering.{register_of};
ghost use Rattle.book.specs.Quote.{quote_of, volume_of};
ghost use Rattle.book.specs.Depth.{depth_of};
ghost use Rattle.host.specs.Made.{MadeFor};
ghost use Rattle.host.specs.Lent.{MovedTo, RanTo};
ghost use Rattle.host.specs.Sides.{sides_of};

use book::{Book, Depth, Done, Volume};
use host::{Ended, Made, Passed, Sides};

// A new book of the market with this Market ID, and whether the number names one.
#[unsafe(no_mangle)]
pub extern "C" fn painterend_new(market: u16) -> Made
    ensures { MadeFor market result }
{
    host::painterend_new(market)
}

#[unsafe(no_mangle)]
pub extern "C" fn painterend_register(book: Book, index: u32, name: &[u8], scale: u8) -> Done
    ensures { Steps book (register_of (view book) index name.now scale) result }
{
    host::painterend_register(book, index, name, scale)
}

// Applies the message at the front of the bytes.
#[unsafe(no_mangle)]
pub extern "C" fn painterend_apply(book: &mut Book, s: &[u8]) -> Passed
    ensures { MovedTo book.old s.now book.new result }
{
    host::painterend_apply(book, s)
}

// Applies the messages from the front of the bytes on, until answer 1 or a Msg Size below 4.
#[unsafe(no_mangle)]
pub extern "C" fn painterend_run(book: &mut Book, s: &[u8]) -> Ended
    ensures { RanTo book.old s.now book.new result }
{
    host::painterend_run(book, s)
}

#[unsafe(no_mangle)]
pub extern "C" fn painterend_quote(book: Book, index: u32) -> Sides
    ensures { result ≡ sides_of (quote_of index (view book)) }
{
    host::painterend_quote(book, index)
}

#[unsafe(no_mangle)]
pub extern "C" fn painterend_depth(book: Book, index: u32) -> Depth
    ensures { result ≡ depth_of index (view book) }
{
    host::painterend_depth(book, index)
}

#[unsafe(no_mangle)]
pub extern "C" fn painterend_volume(book: Book, index: u32) -> Volume
    ensures { result ≡ volume_of index (view book) }
{
    host::painterend_volume(book, index)
}
