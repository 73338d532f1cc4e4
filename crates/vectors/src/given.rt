// The calls that the file lists. docs/VECTORS.md has the fields of each.
ghost use Rattle.std.specs.Prelude.{◌<◌, IfSome, length};

use calls::{Field, Room, counted};
use markets::Market;
use wire::{Head, Message, PLAIN};

// The most room that a written message is given.
pub(crate) const ROOM: usize = 128;

// A call. A message that is made by hand has a type; of a type outside the table there is none.
#[derive(Clone, Copy)]
pub(crate) enum Call<'a> {
    Reach {
        at: usize,
        bytes: &'a [u8],
    },
    Decode {
        market: Market,
        bytes: &'a [u8],
    },
    Make {
        market: Market,
        message: Option<Message>,
        plain: [u8; PLAIN],
        room: Room<ROOM>,
    },
}

// The first of the calls that are left, and those after it. There is none at an unknown letter, where the call is cut short, where a market has another
// number, and where the room is too much. The match is the file's own table of letters: one of functions would be no plainer, since their fields differ.
// As in `calls`, each parser says that what is left is shorter.
pub(crate) fn first_call(listed: &[u8]) -> Option<(Call<'_>, &[u8])>
    ensures { IfSome result (λ p. length p.1.now < length listed.now) }
{
    let (letter, fields) = u8::first(listed)?;
    match letter {
        b'R' => reach(fields),
        b'D' => decode(fields),
        b'M' => make(fields),
        _ => None,
    }
}

fn reach(fields: &[u8]) -> Option<(Call<'_>, &[u8])>
    ensures { IfSome result (λ p. length p.1.now < length fields.now) }
{
    let (at, rest) = u16::first(fields)?;
    let (bytes, rest) = counted(rest)?;
    let call = Call::Reach {
        at: usize::from(at),
        bytes,
    };
    Some((call, rest))
}

fn decode(fields: &[u8]) -> Option<(Call<'_>, &[u8])>
    ensures { IfSome result (λ p. length p.1.now < length fields.now) }
{
    let (market, rest) = Market::first(fields)?;
    let (bytes, rest) = counted(rest)?;
    Some((Call::Decode { market, bytes }, rest))
}

fn make(fields: &[u8]) -> Option<(Call<'_>, &[u8])>
    ensures { IfSome result (λ p. length p.1.now < length fields.now) }
{
    let (market, rest) = Market::first(fields)?;
    let (message, rest) = message(rest)?;
    let (plain, rest) = rest.split_first_chunk()?;
    let (room, rest) = Room::first(rest)?;
    let call = Call::Make {
        market,
        message,
        plain: *plain,
        room,
    };
    Some((call, rest))
}

fn message(fields: &[u8]) -> Option<(Option<Message>, &[u8])>
    ensures { IfSome result (λ p. length p.1.now < length fields.now) }
{
    let (number, rest) = u16::first(fields)?;
    let (seconds, rest) = u32::first(rest)?;
    let (head, rest) = head(rest)?;
    let (order, rest) = u64::first(rest)?;
    let (new_order, rest) = u64::first(rest)?;
    let (id, rest) = u32::first(rest)?;
    let (price, rest) = u32::first(rest)?;
    let (volume, rest) = u32::first(rest)?;
    let (flag, rest) = u8::first(rest)?;
    let (side, rest) = u8::first(rest)?;
    let (letter, rest) = u8::first(rest)?;
    let message = match number {
        100 => Some(Message::Add {
            head,
            order,
            price,
            volume,
            side,
        }),
        101 => Some(Message::Modify {
            head,
            order,
            price,
            volume,
            position: flag,
            side,
        }),
        102 => Some(Message::Delete { head, order }),
        103 => Some(Message::Execute {
            head,
            order,
            trade: id,
            price,
            volume,
            printable: flag,
        }),
        104 => Some(Message::Replace {
            head,
            order,
            new_order,
            price,
            volume,
            side,
        }),
        105 => Some(Message::Imbalance { head, seconds }),
        110 => Some(Message::NonDisplayed {
            head,
            trade: id,
            price,
            volume,
            printable: flag,
        }),
        111 => Some(Message::Cross {
            head,
            cross: id,
            price,
            volume,
            class: letter,
        }),
        112 => Some(Message::TradeCancel { head, trade: id }),
        113 => Some(Message::CrossCorrection {
            head,
            cross: id,
            volume,
        }),
        114 => Some(Message::Retail {
            head,
            indicator: letter,
        }),
        32 => Some(Message::Clear { head, seconds }),
        34 => Some(Message::Status { head, seconds }),
        _ => None,
    };
    Some((message, rest))
}

fn head(fields: &[u8]) -> Option<(Head, &[u8])>
    ensures { IfSome result (λ p. length p.1.now < length fields.now) }
{
    let (nanos, rest) = u32::first(fields)?;
    let (index, rest) = u32::first(rest)?;
    let (number, rest) = u32::first(rest)?;
    let head = Head {
        nanos,
        index,
        number,
    };
    Some((head, rest))
}
