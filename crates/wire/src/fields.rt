// The fields of a message of any type, and the rules that they keep.
ghost use Rattle.std.specs.Prelude.{◌≡◌, ◌+◌, ◌^◌, ◌≤◌, ◌<◌, true, length};
ghost use Rattle.wire.specs.Fields.{Sane, Whole, fields_at, side_bad, volume_bad, conditions_at, first_bad, fault_of};

use crate::bytes::Number;
use crate::table::Layout;
use crate::{BUY, PLAIN, SELL};
use markets::{Market, condition_listed};

// A second has so many nanoseconds.
const NANOS: u32 = 1000000000;

// The fields of all the types, in the order of their offsets. Those that a type lacks are 0 and no Option: `fields_at` and `fields_of` say so.
#[derive(Clone, Copy)]
pub(crate) struct Fields {
    pub(crate) seconds: u32,
    pub(crate) nanos: u32,
    pub(crate) index: u32,
    pub(crate) number: u32,
    pub(crate) order: u64,
    pub(crate) fresh: u64,
    pub(crate) id: u32,
    pub(crate) price: u32,
    pub(crate) volume: u32,
    pub(crate) flag: u8,
    pub(crate) side: u8,
    pub(crate) letter: u8,
}

// What stands in the fields of a layout.
pub(crate) fn fields_at(s: &[u8], l: Layout) -> Fields
    requires { Sane l × Whole l × (l.size ≤ length s.now) }
    ensures { result ≡ fields_at s.now l }
{
    Fields {
        seconds: u32::of(&s[4..l.form]),
        nanos: u32::of(&s[l.form..l.form + 4]),
        index: u32::of(&s[l.form + 4..l.form + 8]),
        number: u32::of(&s[l.form + 8..l.order]),
        order: u64::of(&s[l.order..l.fresh]),
        fresh: u64::of(&s[l.fresh..l.id]),
        id: u32::of(&s[l.id..l.price]),
        price: u32::of(&s[l.price..l.volume]),
        volume: u32::of(&s[l.volume..l.flag]),
        flag: u8::of(&s[l.flag..l.side]),
        side: u8::of(&s[l.side..l.letter]),
        letter: u8::of(&s[l.letter..l.gap]),
    }
}

// The first bad field, in the order of the offsets: those that document 01 calls bad, and the conditions that the market does not list. Fields and array are
// apart, as the rule of that name takes them.
#[tactic(auto, unfolding(crate::specs::Fields::fault_of, crate::specs::Fields::first_bad))]
pub(crate) fn fault_of(market: Market, l: Layout, f: Fields, plain: [u8; PLAIN]) -> Option<usize>
    requires { l.plain + 3 < 2 ^ 64 }
    ensures { result ≡ fault_of market l f plain }
{
    if NANOS <= f.nanos {
        return Some(l.form);
    }
    if volume_bad(l.positive, f.volume) {
        return Some(l.volume);
    }
    if 1 < f.flag {
        return Some(l.flag);
    }
    if side_bad(l.side < l.letter, f.side) {
        return Some(l.side);
    }
    if l.coded {
        return first_unlisted(market, l.plain, plain);
    }
    None
}

// The first of the four conditions that the market does not list. They stand from `at` on. The loop counts, since i is the position that the market is asked for.
#[tactic(auto, using(crate::proofs::Checks::next_condition), unfolding(crate::specs::Fields::first_bad))]
fn first_unlisted(market: Market, at: usize, plain: [u8; PLAIN]) -> Option<usize>
    requires { at + 3 < 2 ^ 64 }
    ensures { result ≡ first_bad (conditions_at true at market plain) }
{
    for i in 0..4 {
        if !condition_listed(market, i, plain[i]) {
            return Some(at + i);
        }
    }
    None
}

fn volume_bad(positive: bool, volume: u32) -> bool
    ensures { result ≡ volume_bad positive volume }
{
    positive && volume == 0
}

// `there`: the type has a side.
fn side_bad(there: bool, side: u8) -> bool
    ensures { result ≡ side_bad there side }
{
    there && side != BUY && side != SELL
}
