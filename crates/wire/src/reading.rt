// Reading a message from a slice.
ghost use Rattle.std.specs.Prelude.{◌≡◌};
ghost use Rattle.wire.specs.Reading.{decoded_as, read_of};
ghost use Rattle.wire.specs.RoundTrip.{WritesBack};

use crate::bytes::{Number, plain_at};
use crate::extent::first_reach;
use crate::fields::{fault_of, fields_at};
use crate::table::shape_of;
use crate::typed::message_of;
use crate::{Decoded, ReadError};
use markets::Market;

// Reads the message at the start of s, as the market sends it: how far it reaches, its type, its size, its fields.
pub fn decode(market: Market, s: &[u8]) -> Result<Decoded, ReadError>
    ensures reads { decoded_as result ≡ read_of market s.now }
    ensures writes_back { WritesBack market s.now (decoded_as result) }
{
    let size = first_reach(s)?;
    let l = shape_of(u16::of(&s[2..4])).ok_or(ReadError::BadType)?;
    if size != l.size {
        return Err(ReadError::BadSize);
    }
    let f = fields_at(s, l);
    let plain = plain_at(&s[l.plain..l.pad]);
    if let Some(n) = fault_of(market, l, f, plain) {
        return Err(ReadError::BadField(n));
    }
    Ok(Decoded {
        message: message_of(l.kind, f),
        plain,
    })
}
