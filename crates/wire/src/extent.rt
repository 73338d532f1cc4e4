// How far a message reaches in the stream: document 01's first three checks.
ghost use Rattle.std.specs.Prelude.{◌≡◌, drop};
ghost use Rattle.wire.specs.Reading.{reached_as, reach_of};

use crate::ReachError;
use crate::bytes::Number;

// Msg Size and Msg Type: no message has fewer bytes.
const LEAST: usize = 4;

// How far the message at a position of the stream reaches.
pub fn reach_at(s: &[u8], at: usize) -> Result<usize, ReachError>
    ensures { reached_as result ≡ reach_of (drop at s.now) }
{
    let rest = s.get(at..).ok_or(ReachError::Short)?;
    first_reach(rest)
}

// How far the message at the start of s reaches.
#[tactic(auto, unfolding(crate::specs::Reading::reach_of, crate::specs::Reading::reach_by))]
pub(crate) fn first_reach(s: &[u8]) -> Result<usize, ReachError>
    ensures { reached_as result ≡ reach_of s.now }
{
    if s.len() < LEAST {
        return Err(ReachError::Short);
    }
    let size = usize::from(u16::of(&s[..2]));
    if size < LEAST {
        return Err(ReachError::Small);
    }
    if s.len() < size {
        return Err(ReachError::Short);
    }
    Ok(size)
}
