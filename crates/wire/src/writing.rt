// Writing a message into a lent buffer.
ghost use Rattle.std.specs.Prelude.{◌≡◌, ◌++◌, ◌≤◌, length, drop};
ghost use Rattle.wire.specs.Fields.{Sane, Whole};
ghost use Rattle.wire.specs.Writing.{image_of, wrote, write_of};
ghost use Rattle.wire.specs.RoundTrip.{ReadsBack};

use crate::bytes::{Number, put_plain};
use crate::fields::{Fields, fault_of};
use crate::table::{Layout, shape_of};
use crate::typed::type_of;
use crate::{Message, PLAIN, WriteError};
use markets::Market;

// Writes a message with its byte array to the start of out, as the market sends it. Refused, it leaves every byte of out.
// Message and array are apart, as document 01 keeps them and `write_of` takes them.
pub fn encode(
    market: Market,
    m: Message,
    plain: [u8; PLAIN],
    out: &mut [u8],
) -> Result<usize, WriteError>
    ensures writes { wrote result out.new ≡ write_of market m plain out.old }
    ensures reads_back { ReadsBack market m plain (wrote result out.new) }
{
    let number = type_of(m);
    let f = Fields::from(m);
    let l = shape_of(number).ok_or(WriteError::BadType)?;
    if let Some(n) = fault_of(market, l, f, plain) {
        return Err(WriteError::BadField(n));
    }
    if out.len() < l.size {
        return Err(WriteError::NoRoom);
    }
    put_message(out, l, number, f, plain);
    Ok(l.size)
}

// Writes the message over the first bytes of out: its numbers, zero in its gap, its byte array, and zero in the byte behind that.
fn put_message(out: &mut [u8], l: Layout, number: u16, f: Fields, plain: [u8; PLAIN])
    requires { Sane l × Whole l × (l.size ≤ length out.old) }
    ensures { out.new ≡ image_of l number f plain ++ drop l.size out.old }
{
    (l.size as u16).lay(&mut out[..2]);
    number.lay(&mut out[2..4]);
    f.seconds.lay(&mut out[4..l.form]);
    f.nanos.lay(&mut out[l.form..l.form + 4]);
    f.index.lay(&mut out[l.form + 4..l.form + 8]);
    f.number.lay(&mut out[l.form + 8..l.order]);
    f.order.lay(&mut out[l.order..l.fresh]);
    f.fresh.lay(&mut out[l.fresh..l.id]);
    f.id.lay(&mut out[l.id..l.price]);
    f.price.lay(&mut out[l.price..l.volume]);
    f.volume.lay(&mut out[l.volume..l.flag]);
    f.flag.lay(&mut out[l.flag..l.side]);
    f.side.lay(&mut out[l.side..l.letter]);
    f.letter.lay(&mut out[l.letter..l.gap]);
    0u8.lay(&mut out[l.gap..l.plain]);
    put_plain(&mut out[l.plain..l.pad], plain);
    0u8.lay(&mut out[l.pad..l.size]);
}
