// Registering, and where a symbol lies.
ghost use Rattle.std.specs.Prelude.{◌≡◌, suc};
ghost use Rattle.places.specs.Places.{symbols, AtPlace};
ghost use Rattle.places.specs.Tickets.{first_in};
ghost use Rattle.symbols.specs.State.{entries, itself, place_of, found_in, vacancy_of};
ghost use Rattle.symbols.specs.Answers.{register_number, Sits};
ghost use Rattle.symbols.specs.Registering.{told_of};
ghost use Rattle.symbols.specs.Promises.{Registers};

use crate::names::{name_bad, padded_name};
use crate::{NAME, Place, Standing, Symbols};
use places::{SYMBOLS, Seat};

// The largest price scale.
const MOST_SCALE: u8 = 6;

// What `told` answers: the name, of so many bytes and zeros after them, and the scale of the prices.
// A library crate has no heap, so the name is an array with its length beside it.
#[derive(Clone, Copy)]
pub struct Listing {
    pub name: [u8; NAME],
    pub len: usize,
    pub scale: u8,
}

// Why a symbol is not registered: a name or a scale that it can't have, an index that has its symbol, or no place left.
#[derive(Clone, Copy, PartialEq, Eq)]
pub enum RegisterError {
    BadName,
    Taken,
    Full,
}

// Document 01's number.
impl From<RegisterError> for u8 {
    ghost from_gives = { λ e n. n ≡ register_number e };

    fn from(e: RegisterError) -> u8 {
        match e {
            RegisterError::BadName => 13,
            RegisterError::Taken => 11,
            RegisterError::Full => 12,
        }
    }
}

impl Symbols {
    // Registers a symbol: a bad name is told first, then a taken index, then that there is no place; or it is not stale, its record is whole and it expects number 1.
    pub fn register(mut self, index: u32, name: &[u8], scale: u8) -> Result<Symbols, RegisterError>
        ensures { Registers self index name.now scale result }
    {
        if MOST_SCALE < scale {
            return Err(RegisterError::BadName);
        }
        if name_bad(name) {
            return Err(RegisterError::BadName);
        }
        if self.place_of(index).is_some() {
            return Err(RegisterError::Taken);
        }
        let Some(free) = self.vacancy() else {
            return Err(RegisterError::Full);
        };
        let standing = Standing {
            expected: 1,
            stale: false,
            whole: true,
        };
        let kept = padded_name(name);
        self.places[free] = Place {
            used: true,
            index,
            name: kept,
            len: name.len(),
            scale,
            standing,
        };
        self.tickets[free] = u64::from(index) + 1;
        Ok(self)
    }

    // What was registered under an index.
    pub fn told(&self, index: u32) -> Option<Listing>
        ensures { result ≡ told_of (found_in itself index (entries self.now)) }
    {
        let k = self.place_of(index)?;
        let p = self.places[k];
        let name = p.name;
        Some(Listing {
            name,
            len: p.len,
            scale: p.scale,
        })
    }

    // The place of the symbol with this index.
    pub fn place_of(&self, index: u32) -> Option<usize>
        ensures { AtPlace symbols result (place_of itself index (entries self.now)) }
    {
        self.places.iter().position(|p| p.used && p.index == index)
    }

    // The first place with no symbol.
    fn vacancy(&self) -> Option<usize>
        ensures { AtPlace symbols result (vacancy_of (entries self.now)) }
    {
        self.places.iter().position(|p| !p.used)
    }

    // The seat of the symbol with this index, as the tickets tell it. All eight are looked at, from the last to the first, so that no branch hangs on which symbol it is.
    pub fn seat(&self, index: u32) -> Option<Seat>
        ensures { Sits result (first_in self.now.tickets 0 symbols (suc index)) }
    {
        let ticket = u64::from(index) + 1;
        let mut seat = None;
        for j in (0..SYMBOLS).rev() {
            if self.tickets[j] == ticket {
                seat = Seat::of(j);
            }
        }
        seat
    }
}
