// The eight places of registration: who is registered, which number each symbol expects, whether it is stale, and whether its record is whole.
//
// Nothing here knows of messages, of orders or of trades. Registering takes the symbols by value and hands the next ones back; a message changes them in place.
#![tactic(auto)]

mod names;
mod registering;
mod turns;

ghost use Rattle.std.specs.Prelude.{◌≡◌};
ghost use Rattle.symbols.specs.State.{no_symbol, nobody};

use places::SYMBOLS;
pub use registering::{Listing, RegisterError};
pub use turns::{TurnError, counted, turn_of};

// The longest name of a symbol, in bytes.
pub const NAME: usize = 11;

// Where a symbol stands: the number that it expects, whether it is refused until a clear, and whether its record is whole. C keeps this layout, as part of a place.
#[repr(C)]
#[derive(Clone, Copy)]
pub struct Standing {
    pub expected: u64,
    pub stale: bool,
    pub whole: bool,
}

// A place of registration: empty, or a symbol's. The name is padded with zeros.
// C keeps this layout, through which no Option and no slice goes: so `used` tells an empty place, and `len` stands beside the name.
#[repr(C)]
#[derive(Clone, Copy)]
pub struct Place {
    len: usize,
    name: [u8; NAME],
    scale: u8,
    index: u32,
    standing: Standing,
    used: bool,
}

// The places, and what a search by index reads of them: at each place its symbol's index and one, or 0 where it is empty.
// C keeps this layout: two arrays, and not one of pairs. The fields stay public, since a narrower type would ask more of a host in Rattle.
#[repr(C)]
#[derive(Clone, Copy)]
pub struct Symbols {
    pub places: [Place; SYMBOLS],
    pub tickets: [u64; SYMBOLS],
}

impl Symbols {
    // Nobody is registered.
    pub fn new() -> Symbols
        ensures { result ≡ nobody }
    {
        let p = no_symbol();
        let places = [p; SYMBOLS];
        let tickets = [0; SYMBOLS];
        Symbols { places, tickets }
    }
}

// An empty place, all zero.
fn no_symbol() -> Place
    ensures { result ≡ no_symbol }
{
    let name = [0u8; NAME];
    let standing = Standing {
        expected: 0,
        stale: false,
        whole: false,
    };
    Place {
        used: false,
        index: 0,
        name,
        len: 0,
        scale: 0,
        standing,
    }
}
