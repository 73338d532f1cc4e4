// Registering a symbol, and what was registered.
ghost use Rattle.std.specs.Prelude.{◌≡◌};
ghost use Rattle.book.specs.State.{view};
ghost use Rattle.book.specs.Promises.{Steps};
ghost use Rattle.book.specs.Registering.{register_of, told_in, told_number};

use crate::{Book, Done};
use symbols::{Listing, Symbols};

impl Book {
    // Registers a symbol: 13, then 11, then 12; or it starts with no orders and expects number 1.
    pub fn register(mut self, index: u32, name: &[u8], scale: u8) -> Done
        ensures { Steps self (register_of (view self) index name.now scale) result }
    {
        let answer = match self.symbols.register(index, name, scale) {
            Ok(next) => {
                self.symbols = next;
                0
            }
            Err(e) => u8::from(e),
        };
        Done { book: self, answer }
    }

    // The symbols by themselves: whoever asks of many messages hands on these and not the whole state.
    pub fn names(&self) -> Symbols
        ensures { result ≡ self.now.symbols }
    {
        self.symbols
    }

    // What was registered under an index.
    pub fn symbol(&self, index: u32) -> Option<Listing>
        ensures { result ≡ told_in index (view self.now) }
    {
        self.symbols.told(index)
    }
}

// Document 01's number of what `symbol` tells: 5 where nobody is registered.
pub fn told_number(told: Option<Listing>) -> u8
    ensures { result ≡ told_number told }
{
    match told {
        Some(_) => 0,
        None => 5,
    }
}
