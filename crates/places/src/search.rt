// Searching a shelf: from a number's home on, going round.
ghost use Rattle.std.specs.Prelude.{◌≡◌, false, cond, eqb};
ghost use Rattle.places.specs.Places.{AtPlace};
ghost use Rattle.places.specs.Homes.{sought_in, free_in};
ghost use Rattle.places.specs.Tickets.{first_in};

use crate::Shelf;
use crate::homes::{capped, home_of, round_from};

impl Shelf {
    // The first place, from the number's home on and within that home's span, at which the number is live.
    pub fn find(self, numbers: &[u64], lives: &[bool], spans: &[u16], number: u64) -> Option<usize>
        ensures { AtPlace self.each result (sought_in numbers.now lives.now spans.now self.from self.each number) }
    {
        let n = usize::from(self.each);
        let shortest = numbers.len().min(lives.len()).min(spans.len());
        if self.lies_outside(shortest) {
            return None;
        }
        let home = home_of(number, self.each);
        let h = self.from + home;
        let span = capped(spans[h], self.each);
        // Document 01 names this form: a loop over a symbol's places that yields the place by `break` with a value.
        let mut j: usize = 0;
        let at = loop {
            if span <= j {
                break None;
            }
            let i = round_from(n, home, j);
            let p = self.from + i;
            if is_held(lives[p], numbers[p], number) {
                break Some(i);
            }
            j += 1;
        };
        at
    }

    // An empty place, the first from a number's home on.
    pub fn room(self, lives: &[bool], number: u64) -> Option<usize>
        ensures { AtPlace self.each result (free_in lives.now self.from self.each number) }
    {
        let n = usize::from(self.each);
        if self.lies_outside(lives.len()) {
            return None;
        }
        let home = home_of(number, self.each);
        for j in 0..n {
            let i = round_from(n, home, j);
            let p = self.from + i;
            if !lives[p] {
                return Some(i);
            }
        }
        None
    }

    // The first place of the shelf at which a number stands.
    pub fn first(self, numbers: &[u64], number: u64) -> Option<usize>
        ensures { AtPlace self.each result (first_in numbers.now self.from self.each number) }
    {
        let n = usize::from(self.each);
        if self.lies_outside(numbers.len()) {
            return None;
        }
        for j in 0..n {
            if numbers[self.from + j] == number {
                return Some(j);
            }
        }
        None
    }
}

fn is_held(live: bool, at: u64, number: u64) -> bool
    ensures { result ≡ cond live (eqb at number) false }
{
    at == number && live
}
