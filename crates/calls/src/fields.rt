// The fields of a call, one after the other: each is taken from the front of what is left of the call. Numbers are little-endian.
ghost use Rattle.std.specs.Prelude.{◌≡◌, ◌<◌, ◌≤◌, List, ℕ, Option, Some, None, MatchOption, IfSome, length, slice_index};
ghost use Rattle.std.specs.Int.{from_le_bytes, w16, w32, w64};
ghost use Rattle.calls.specs.Fields.{Reads, ReadsBytes, number_at, market_at, room_at, counted_at};

use markets::Market;

// A field of a call: what stands at the front of the bytes, and the bytes after it. There is none where the call is cut short.
// That what is left is shorter stands at each parser, since the loop over a file ends by it: a struct of a value and the rest would have to carry the length before.
pub trait Field: Sized {
    ghost at_front: { List ℕ → Option (Self × List ℕ) };

    fn first(call: &[u8]) -> Option<(Self, &[u8])>
        ensures field { Reads at_front call.now result }
        ensures shorter { IfSome result (λ p. length p.1.now < length call.now) };
}

impl Field for u8 {
    ghost at_front = { number_at 1 (λ bytes. slice_index bytes 0) };

    fn first(call: &[u8]) -> Option<(u8, &[u8])> {
        let (byte, rest) = call.split_first()?;
        Some((*byte, rest))
    }
}

impl Field for u16 {
    ghost at_front = { number_at 2 (from_le_bytes w16) };

    fn first(call: &[u8]) -> Option<(u16, &[u8])> {
        let (bytes, rest) = call.split_first_chunk()?;
        Some((u16::from_le_bytes(*bytes), rest))
    }
}

impl Field for u32 {
    ghost at_front = { number_at 4 (from_le_bytes w32) };

    fn first(call: &[u8]) -> Option<(u32, &[u8])> {
        let (bytes, rest) = call.split_first_chunk()?;
        Some((u32::from_le_bytes(*bytes), rest))
    }
}

impl Field for u64 {
    ghost at_front = { number_at 8 (from_le_bytes w64) };

    fn first(call: &[u8]) -> Option<(u64, &[u8])> {
        let (bytes, rest) = call.split_first_chunk()?;
        Some((u64::from_le_bytes(*bytes), rest))
    }
}

// A market stands as the byte of its Market ID. A byte that names none is no field.
impl Field for Market {
    ghost at_front = { market_at };

    fn first(call: &[u8]) -> Option<(Market, &[u8])> {
        let (number, rest) = u8::first(call)?;
        let market = Market::try_from(u16::from(number)).ok()?;
        Some((market, rest))
    }
}

// Bytes with their number before them, in two bytes.
pub fn counted(call: &[u8]) -> Option<(&[u8], &[u8])>
    ensures field { ReadsBytes counted_at call.now result }
    ensures shorter { IfSome result (λ p. length p.1.now < length call.now) }
{
    let (count, rest) = u16::first(call)?;
    rest.split_at_checked(usize::from(count))
}

// How many bytes a call may write: at most so many.
#[derive(Clone, Copy)]
pub struct Room<const MOST: usize> {
    pub bytes: usize,
    ghost fits: { bytes ≤ MOST },
}

impl<const MOST: usize> Room<MOST> {
    // A room stands as a number of two bytes. One above the most is no field.
    pub fn first(call: &[u8]) -> Option<(Room<MOST>, &[u8])>
        ensures field { MatchOption result (room_at MOST call.now ≡ None) (λ p. room_at MOST call.now ≡ Some (p.0.bytes, p.1.now)) }
        ensures shorter { IfSome result (λ p. length p.1.now < length call.now) }
    {
        let (number, rest) = u16::first(call)?;
        let bytes = usize::from(number);
        if MOST < bytes {
            return None;
        }
        Some((Room { bytes }, rest))
    }
}
