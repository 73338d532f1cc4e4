// Spans: for each home, how many places from it on may hold a live number of it.
ghost use Rattle.std.specs.Prelude.{◌≡◌, false, cond, eqb};
ghost use Rattle.places.specs.Homes.{home_of, raised_to, lowered_to};

use crate::Shelf;
use crate::homes::{away_from, capped, home_of, round_from};

// The span of a number's home once the number lies at place i, if it is live.
pub fn raised(span: u16, each: u16, number: u64, live: bool, i: usize) -> u16
    ensures { result ≡ raised_to each number live i span }
{
    let n = usize::from(each);
    if n <= i || !live {
        return span;
    }
    let home = home_of(number, each);
    let reach = (away_from(n, home, i) + 1) as u16;
    span.max(reach)
}

impl Shelf {
    // The span of a number's home, no further than to the last live number of that home.
    pub fn lowered(self, numbers: &[u64], lives: &[bool], span: u16, number: u64) -> u16
        ensures { result ≡ lowered_to numbers.now lives.now self.from self.each number span }
    {
        let n = usize::from(self.each);
        let shortest = numbers.len().min(lives.len());
        if self.lies_outside(shortest) {
            return span;
        }
        let home = home_of(number, self.each);
        for j in (0..capped(span, self.each)).rev() {
            let i = round_from(n, home, j);
            let p = self.from + i;
            if has_home(lives[p], numbers[p], self.each, home) {
                return (j + 1) as u16;
            }
        }
        0
    }
}

fn has_home(live: bool, number: u64, each: u16, home: usize) -> bool
    ensures { result ≡ cond live (eqb (home_of each number) home) false }
{
    home_of(number, each) == home && live
}
