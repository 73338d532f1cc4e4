// The home of a number, and the way round a shelf from it.
ghost use Rattle.std.specs.Prelude.{◌≡◌, ◌<◌, ◌≤◌, min};
ghost use Rattle.places.specs.Homes.{home_of, most_places, round_from, away_from, outside};
ghost use Rattle.places.specs.Places.{spot_in};

use crate::{SYMBOLS, Shelf};

// Two to the power of 32: what a half of a number is below.
const HALF: u64 = 4294967296;

// The share of HALF by which the golden ratio divides it, so that numbers that follow each other get homes that lie apart.
const GOLDEN: u64 = 2654435769;

// The place at which the search for a number begins. Both halves of the number count.
pub fn home_of(number: u64, each: u16) -> usize
    ensures { result ≡ home_of each number }
{
    let folded = (number % HALF + number / HALF) % HALF;
    let spread = folded * GOLDEN % HALF;
    (spread * u64::from(each) / HALF) as usize
}

// The place j places on from a home.
pub(crate) fn round_from(n: usize, home: usize, j: usize) -> usize
    requires { (home < n) × (j < n) × (n ≤ most_places) }
    ensures { (result ≡ round_from n home j) × (result < n) }
{
    let i = home + j;
    if i < n { i } else { i - n }
}

// How many places on from a home place i is.
pub(crate) fn away_from(n: usize, home: usize, i: usize) -> usize
    requires { (home < n) × (i < n) × (n ≤ most_places) }
    ensures { (result ≡ away_from n home i) × (result < n) }
{
    if home <= i { i - home } else { i + n - home }
}

// A place among all that can be looked at and stored to: place i of symbol k, or its first where i is none; and the first of all past the eighth symbol.
pub fn spot(k: usize, each: u16, i: usize) -> usize
    ensures { result ≡ spot_in each k i }
{
    let n = usize::from(each);
    if SYMBOLS <= k {
        return 0;
    }
    if i < n { k * n + i } else { k * n }
}

impl Shelf {
    // Whether there is no such shelf in a list of this length.
    pub(crate) fn lies_outside(self, length: usize) -> bool
        ensures { result ≡ outside self.from self.each length }
    {
        let n = usize::from(self.each);
        if n == 0 || length < self.from {
            return true;
        }
        length - self.from < n
    }
}

// A span reaches no further than once round.
pub(crate) fn capped(span: u16, each: u16) -> usize
    ensures { result ≡ min span each }
{
    usize::from(span.min(each))
}
