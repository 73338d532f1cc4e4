// A symbol's seat: its place of registration, one of the eight. The rooms' public calls take the plain place: each promises what it does past the eighth
// (`Changes`, `Clears`, `Deals` and `Alters`, clause `outside`; `none_past`).
ghost use Rattle.std.specs.Prelude.{◌≡◌, ◌<◌, ◌≤◌, ◌*◌, IfSome, IfNone};
ghost use Rattle.places.specs.Places.{symbols};

use crate::{SYMBOLS, Shelf};

#[derive(Clone, Copy)]
pub struct Seat {
    pub place: usize,
    ghost below: { place < symbols },
}

impl Seat {
    // There is none past the eighth.
    pub fn of(place: usize) -> Option<Seat>
        ensures seat { IfSome result (λ s. s.place ≡ place) }
        ensures none { IfNone result (symbols ≤ place) }
    {
        if place < SYMBOLS {
            Some(Seat { place })
        } else {
            None
        }
    }

    // Its shelf, where each symbol has so many places.
    pub fn shelf(self, each: u16) -> Shelf
        ensures { result ≡ record { from = self.place * each; each = each } }
    {
        Shelf {
            from: self.place * usize::from(each),
            each,
        }
    }
}
