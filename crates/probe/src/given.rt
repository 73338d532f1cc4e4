// The calls that the file lists. docs/PROBE.md has the fields of each.
ghost use Rattle.std.specs.Prelude.{◌≤◌, IfSome, length};

use calls::{Field, Room, counted};
use markets::Market;

// The most room that a written message or a line is given.
pub(crate) const ROOM: usize = 256;

// A position, and the bytes in which it is one. As in `calls`, each parser says that no more is left than before.
#[derive(Clone, Copy)]
pub(crate) struct Stream<'a> {
    pub(crate) at: usize,
    pub(crate) bytes: &'a [u8],
}

impl<'a> Stream<'a> {
    fn first(fields: &'a [u8]) -> Option<(Stream<'a>, &'a [u8])>
        ensures { IfSome result (λ p. length p.1.now ≤ length fields.now) }
    {
        let (at, rest) = u16::first(fields)?;
        let (bytes, rest) = counted(rest)?;
        let stream = Stream {
            at: usize::from(at),
            bytes,
        };
        Some((stream, rest))
    }
}

// Bytes that are read, the nanoseconds that the message then gets, and the room for what is written of it.
#[derive(Clone, Copy)]
pub(crate) struct Retimed<'a> {
    pub(crate) nanos: u32,
    pub(crate) room: Room<ROOM>,
    pub(crate) bytes: &'a [u8],
}

// A call. Those of one symbol give its index.
#[derive(Clone, Copy)]
pub(crate) enum Call<'a> {
    New(Market),
    Register {
        index: u32,
        scale: u8,
        name: &'a [u8],
    },
    Step(Stream<'a>),
    Run(Stream<'a>),
    Quote(u32),
    Volume(u32),
    Depth(u32),
    Read(Stream<'a>),
    Write(Retimed<'a>),
    Line {
        retimed: Retimed<'a>,
        sequence: u32,
        second: u32,
    },
}

// The call of a letter with its fields, and the calls after it. There is none at an unknown letter, where the call is cut short, where a market has another
// number, and where the room is too much. The match is the file's own table of letters: one of functions would be no plainer, since their fields differ.
pub(crate) fn call_of(letter: u8, fields: &[u8]) -> Option<(Call<'_>, &[u8])>
    ensures { IfSome result (λ p. length p.1.now ≤ length fields.now) }
{
    match letter {
        b'N' => Some((Call::New(Market::Nyse), fields)),
        b'M' => {
            let (market, rest) = Market::first(fields)?;
            Some((Call::New(market), rest))
        }
        b'G' => register(fields),
        b'S' => {
            let (s, rest) = Stream::first(fields)?;
            Some((Call::Step(s), rest))
        }
        b'X' => {
            let (s, rest) = Stream::first(fields)?;
            Some((Call::Run(s), rest))
        }
        b'Q' => {
            let (index, rest) = u32::first(fields)?;
            Some((Call::Quote(index), rest))
        }
        b'V' => {
            let (index, rest) = u32::first(fields)?;
            Some((Call::Volume(index), rest))
        }
        b'H' => {
            let (index, rest) = u32::first(fields)?;
            Some((Call::Depth(index), rest))
        }
        b'D' => {
            let (s, rest) = Stream::first(fields)?;
            Some((Call::Read(s), rest))
        }
        b'W' => write(fields),
        b'L' => line(fields),
        _ => None,
    }
}

fn register(fields: &[u8]) -> Option<(Call<'_>, &[u8])>
    ensures { IfSome result (λ p. length p.1.now ≤ length fields.now) }
{
    let (index, rest) = u32::first(fields)?;
    let (scale, rest) = u8::first(rest)?;
    let (count, rest) = u8::first(rest)?;
    let (name, rest) = rest.split_at_checked(usize::from(count))?;
    Some((Call::Register { index, scale, name }, rest))
}

fn write(fields: &[u8]) -> Option<(Call<'_>, &[u8])>
    ensures { IfSome result (λ p. length p.1.now ≤ length fields.now) }
{
    let (nanos, rest) = u32::first(fields)?;
    let (room, rest) = Room::first(rest)?;
    let (bytes, rest) = counted(rest)?;
    let retimed = Retimed { nanos, room, bytes };
    Some((Call::Write(retimed), rest))
}

fn line(fields: &[u8]) -> Option<(Call<'_>, &[u8])>
    ensures { IfSome result (λ p. length p.1.now ≤ length fields.now) }
{
    let (nanos, rest) = u32::first(fields)?;
    let (sequence, rest) = u32::first(rest)?;
    let (second, rest) = u32::first(rest)?;
    let (room, rest) = Room::first(rest)?;
    let (bytes, rest) = counted(rest)?;
    let call = Call::Line {
        retimed: Retimed { nanos, room, bytes },
        sequence,
        second,
    };
    Some((call, rest))
}
