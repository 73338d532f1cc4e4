// The number in turn, stale, and the mark, of the symbol at place k. Past the eighth place there is nobody, and nothing changes.
ghost use Rattle.std.specs.Prelude.{◌≡◌, ltb, get_or};
ghost use Rattle.std.proofs.Math.Option.{none};
ghost use Rattle.symbols.specs.State.{entry_seen, entries};
ghost use Rattle.symbols.specs.Answers.{answered, turn_number};
ghost use Rattle.symbols.specs.Turns.{turn_answer, turn_at, standing_of, no_standing, staled, counted_if, restanding, restarted};
ghost use Rattle.symbols.specs.Promises.{Alters};
ghost use Rattle.symbols.specs.declared.Standing.{Standing};

use crate::{Place, Standing, Symbols};
use places::SYMBOLS;
use std::cmp::Ordering;

// How many numbers a message can carry.
const NUMBERS: u64 = 4294967296;

// An empty place counts as stale, and its record as not whole.
const NO_STANDING: Standing = Standing {
    expected: 0,
    stale: true,
    whole: false,
};

// Why a number is not taken: nobody is registered, it was used before, it comes before its turn, or the symbol waits for its clear.
#[derive(Clone, Copy, PartialEq, Eq)]
pub enum TurnError {
    Unknown,
    Old,
    Gap,
    Stale,
}

// Document 01's number.
impl From<TurnError> for u8 {
    ghost from_gives = { λ e n. n ≡ turn_number e };

    fn from(e: TurnError) -> u8 {
        match e {
            TurnError::Unknown => 5,
            TurnError::Old => 6,
            TurnError::Gap => 7,
            TurnError::Stale => 8,
        }
    }
}

impl Symbols {
    // Whether a number is in its turn.
    pub fn turn_at(&self, k: usize, number: u32) -> Result<(), TurnError>
        ensures { answered turn_number result ≡ turn_at (get_or (entries self.now) k none) number }
    {
        if SYMBOLS <= k {
            return Err(TurnError::Unknown);
        }
        turn_of(self.places[k], number)
    }

    // Where a symbol stands. It is no Option: of nobody too it promises where he stands (`standing_of`, `no_standing`).
    pub fn standing(&self, k: usize) -> Standing
        ensures { result ≡ standing_of (get_or (entries self.now) k none) }
    {
        if SYMBOLS <= k {
            return NO_STANDING;
        }
        let p = self.places[k];
        if p.used {
            return p.standing;
        }
        NO_STANDING
    }

    // The symbol becomes stale, and its record loses the mark.
    pub fn make_stale(&mut self, k: usize)
        ensures { Alters self.old k staled self.new }
    {
        self.alter(k, staled);
    }

    // A number is used: the next one is expected.
    pub fn count(&mut self, k: usize, lost: bool)
        ensures { Alters self.old k (counted_if lost) self.new }
    {
        self.alter(k, |s| counted_if(s, lost));
    }

    // The symbol isn't stale and expects the number given. Another number than the expected one loses the mark.
    pub fn restart(&mut self, k: usize, next: u32)
        ensures { Alters self.old k (restarted next) self.new }
    {
        self.alter(k, |s| restarted(s, next));
    }

    // The symbol stands as the change of where it stood says.
    fn alter<F: Fn(Standing) -> Standing>(&mut self, k: usize, change: F)
        requires { F.IsAlwaysCallable change }
        ensures { (s : Standing) × F.post change (standing_of (get_or (entries self.old) k none)) s × Alters self.old k (λ t. s) self.new }
    {
        let s = change(self.standing(k));
        if k < SYMBOLS {
            self.places[k].standing = s;
        }
    }
}

// Whether a number is in its turn at a place.
pub fn turn_of(p: Place, number: u32) -> Result<(), TurnError>
    ensures { answered turn_number result ≡ turn_at (entry_seen p) number }
{
    if p.used {
        turn(p.standing, number)
    } else {
        Err(TurnError::Unknown)
    }
}

// A place whose symbol has used a number more.
pub fn counted(p: Place, lost: bool) -> Place
    ensures { result ≡ restanding p (counted_if lost p.standing) }
{
    Place {
        standing: counted_if(p.standing, lost),
        ..p
    }
}

// Stale is tested before the number.
fn turn(s: Standing, number: u32) -> Result<(), TurnError>
    ensures { answered turn_number result ≡ turn_answer s.stale (ltb number s.expected) (ltb s.expected number) }
{
    if s.stale {
        return Err(TurnError::Stale);
    }
    match u64::from(number).cmp(&s.expected) {
        Ordering::Less => Err(TurnError::Old),
        Ordering::Equal => Ok(()),
        Ordering::Greater => Err(TurnError::Gap),
    }
}

fn staled(s: Standing) -> Standing
    ensures { result ≡ staled s }
{
    Standing {
        stale: true,
        whole: false,
        ..s
    }
}

fn counted_if(s: Standing, lost: bool) -> Standing
    ensures { result ≡ counted_if lost s }
{
    if NUMBERS <= s.expected {
        return s;
    }
    Standing {
        expected: s.expected + 1,
        whole: s.whole && !lost,
        ..s
    }
}

fn restarted(s: Standing, next: u32) -> Standing
    ensures { result ≡ restarted next s }
{
    let expected = u64::from(next);
    Standing {
        expected,
        stale: false,
        whole: s.whole && expected == s.expected,
    }
}
