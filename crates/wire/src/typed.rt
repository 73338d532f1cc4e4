// Typed messages and their fields: each type has its own.
ghost use Rattle.std.specs.Prelude.{◌≡◌};
ghost use Rattle.wire.specs.RoundTrip.{InRange};
ghost use Rattle.wire.specs.Fields.{fault_as};
ghost use Rattle.wire.specs.Message.{message_of, fields_of_head, fields_of, type_of, index_in, bad_field_of};

use crate::fields::{Fields, fault_of};
use crate::table::{Kind, shape_of};
use crate::{Head, Message, PLAIN};
use markets::Market;

// The message of a type with these fields. It is made of two values, and a `From` of a pair would name neither.
pub(crate) fn message_of(k: Kind, f: Fields) -> Message
    ensures { result ≡ message_of k f }
{
    let head = Head {
        nanos: f.nanos,
        index: f.index,
        number: f.number,
    };
    match k {
        Kind::Add => Message::Add {
            head,
            order: f.order,
            price: f.price,
            volume: f.volume,
            side: f.side,
        },
        Kind::Modify => Message::Modify {
            head,
            order: f.order,
            price: f.price,
            volume: f.volume,
            position: f.flag,
            side: f.side,
        },
        Kind::Delete => Message::Delete {
            head,
            order: f.order,
        },
        Kind::Execute => Message::Execute {
            head,
            order: f.order,
            trade: f.id,
            price: f.price,
            volume: f.volume,
            printable: f.flag,
        },
        Kind::Replace => Message::Replace {
            head,
            order: f.order,
            new_order: f.fresh,
            price: f.price,
            volume: f.volume,
            side: f.side,
        },
        Kind::Imbalance => Message::Imbalance {
            head,
            seconds: f.seconds,
        },
        Kind::NonDisplayed => Message::NonDisplayed {
            head,
            trade: f.id,
            price: f.price,
            volume: f.volume,
            printable: f.flag,
        },
        Kind::Cross => Message::Cross {
            head,
            cross: f.id,
            price: f.price,
            volume: f.volume,
            class: f.letter,
        },
        Kind::TradeCancel => Message::TradeCancel { head, trade: f.id },
        Kind::CrossCorrection => Message::CrossCorrection {
            head,
            cross: f.id,
            volume: f.volume,
        },
        Kind::Retail => Message::Retail {
            head,
            indicator: f.letter,
        },
        Kind::Clear => Message::Clear {
            head,
            seconds: f.seconds,
        },
        Kind::Status => Message::Status {
            head,
            seconds: f.seconds,
        },
    }
}

// The fields that every message has, and 0 for those that its type lacks.
impl From<Head> for Fields {
    ghost from_gives = { λ head fields. fields ≡ fields_of_head head };

    fn from(head: Head) -> Fields {
        Fields {
            seconds: 0,
            nanos: head.nanos,
            index: head.index,
            number: head.number,
            order: 0,
            fresh: 0,
            id: 0,
            price: 0,
            volume: 0,
            flag: 0,
            side: 0,
            letter: 0,
        }
    }
}

impl From<Message> for Fields {
    ghost from_gives = { λ message fields. (fields ≡ fields_of message) × InRange (fields_of message) };

    fn from(m: Message) -> Fields {
        match m {
            Message::Add {
                head,
                order,
                price,
                volume,
                side,
            } => Fields {
                order,
                price,
                volume,
                side,
                ..Fields::from(head)
            },
            Message::Modify {
                head,
                order,
                price,
                volume,
                position,
                side,
            } => Fields {
                order,
                price,
                volume,
                flag: position,
                side,
                ..Fields::from(head)
            },
            Message::Delete { head, order } => Fields {
                order,
                ..Fields::from(head)
            },
            Message::Execute {
                head,
                order,
                trade,
                price,
                volume,
                printable,
            } => Fields {
                order,
                id: trade,
                price,
                volume,
                flag: printable,
                ..Fields::from(head)
            },
            Message::Replace {
                head,
                order,
                new_order,
                price,
                volume,
                side,
            } => Fields {
                order,
                fresh: new_order,
                price,
                volume,
                side,
                ..Fields::from(head)
            },
            Message::NonDisplayed {
                head,
                trade,
                price,
                volume,
                printable,
            } => Fields {
                id: trade,
                price,
                volume,
                flag: printable,
                ..Fields::from(head)
            },
            Message::Cross {
                head,
                cross,
                price,
                volume,
                class,
            } => Fields {
                id: cross,
                price,
                volume,
                letter: class,
                ..Fields::from(head)
            },
            Message::TradeCancel { head, trade } => Fields {
                id: trade,
                ..Fields::from(head)
            },
            Message::CrossCorrection {
                head,
                cross,
                volume,
            } => Fields {
                id: cross,
                volume,
                ..Fields::from(head)
            },
            Message::Retail { head, indicator } => Fields {
                letter: indicator,
                ..Fields::from(head)
            },
            Message::Imbalance { head, seconds }
            | Message::Clear { head, seconds }
            | Message::Status { head, seconds } => Fields {
                seconds,
                ..Fields::from(head)
            },
        }
    }
}

// The type number of a message. A function, as `index_of` is: a message holds several numbers, and a `From` would not say which.
pub fn type_of(m: Message) -> u16
    ensures { result ≡ type_of m }
{
    match m {
        Message::Add { .. } => 100,
        Message::Modify { .. } => 101,
        Message::Delete { .. } => 102,
        Message::Execute { .. } => 103,
        Message::Replace { .. } => 104,
        Message::Imbalance { .. } => 105,
        Message::NonDisplayed { .. } => 110,
        Message::Cross { .. } => 111,
        Message::TradeCancel { .. } => 112,
        Message::CrossCorrection { .. } => 113,
        Message::Retail { .. } => 114,
        Message::Clear { .. } => 32,
        Message::Status { .. } => 34,
    }
}

// The symbol index of a message.
pub fn index_of(m: Message) -> u32
    ensures { result ≡ index_in m }
{
    Fields::from(m).index
}

// The offset of the first bad field of a message with its byte array, where Msg Size stands at 0. A message that was read under the market has none; one that was made by hand may.
// Message and array are apart, as document 01 keeps them and `bad_field_of` takes them.
pub fn bad_field(market: Market, m: Message, plain: [u8; PLAIN]) -> Option<usize>
    ensures { fault_as result ≡ bad_field_of market m plain }
{
    let l = shape_of(type_of(m))?;
    fault_of(market, l, Fields::from(m), plain)
}
