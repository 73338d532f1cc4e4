// The message layer: the 13 message types of document 01, read from a lent slice and written into a lent buffer.
//
// Every promise is an equation with a definition of specs/, where document 01's rules stand. No public function asks anything of its caller.
#![tactic(auto)]

mod bytes;
mod extent;
mod fields;
mod reading;
mod table;
mod typed;
mod writing;

ghost use Rattle.std.specs.Prelude.{◌≡◌, ◌≢◌, ℕ, Err};
ghost use Rattle.std.specs.Result.{result_unwrap_or};
ghost use Rattle.std.proofs.Common.{rules};
ghost use Rattle.wire.specs.Outcome.{number_of, told_by};
ghost use Rattle.wire.specs.Reading.{answered_as, unreached_as};
ghost use Rattle.wire.specs.Writing.{wrote_as};

pub use extent::reach_at;
pub use reading::decode;
pub use typed::{bad_field, index_of, type_of};
pub use writing::encode;

// The longest byte array of a message: the plain bytes of a 105.
pub const PLAIN: usize = 53;

// The letters of the sides.
pub const BUY: u8 = b'B';

pub const SELL: u8 = b'S';

// What every message has. In a symbol clear the number is the next symbol number.
#[derive(Clone, Copy)]
pub struct Head {
    pub nanos: u32,
    pub index: u32,
    pub number: u32,
}

// A typed message: its scalar fields. Its byte array (firm, conditions or plain bytes) is kept beside it. Sides, flags and letters are bytes and no enums: a
// message made by hand may hold any byte, and is then refused with 4 (`bad_field_of`).
#[derive(Clone, Copy)]
pub enum Message {
    Add {
        head: Head,
        order: u64,
        price: u32,
        volume: u32,
        side: u8,
    },
    Modify {
        head: Head,
        order: u64,
        price: u32,
        volume: u32,
        position: u8,
        side: u8,
    },
    Delete {
        head: Head,
        order: u64,
    },
    Execute {
        head: Head,
        order: u64,
        trade: u32,
        price: u32,
        volume: u32,
        printable: u8,
    },
    Replace {
        head: Head,
        order: u64,
        new_order: u64,
        price: u32,
        volume: u32,
        side: u8,
    },
    Imbalance {
        head: Head,
        seconds: u32,
    },
    NonDisplayed {
        head: Head,
        trade: u32,
        price: u32,
        volume: u32,
        printable: u8,
    },
    Cross {
        head: Head,
        cross: u32,
        price: u32,
        volume: u32,
        class: u8,
    },
    TradeCancel {
        head: Head,
        trade: u32,
    },
    CrossCorrection {
        head: Head,
        cross: u32,
        volume: u32,
    },
    Retail {
        head: Head,
        indicator: u8,
    },
    Clear {
        head: Head,
        seconds: u32,
    },
    Status {
        head: Head,
        seconds: u32,
    },
}

// Why no message is reached: too few bytes, or a Msg Size below 4.
#[derive(Clone, Copy, PartialEq, Eq)]
pub enum ReachError {
    Short,
    Small,
}

// Why nothing is read. A bad field comes with the offset of the first one.
#[derive(Clone, Copy, PartialEq, Eq)]
pub enum ReadError {
    Short,
    BadSize,
    BadType,
    BadField(usize),
}

// A message that was read, with its byte array beside it, zeros after its end, which the layout of its type tells.
#[derive(Clone, Copy)]
pub struct Decoded {
    pub message: Message,
    pub plain: [u8; PLAIN],
}

// Why nothing is written. A bad field comes with the offset of the first one.
#[derive(Clone, Copy, PartialEq, Eq)]
pub enum WriteError {
    BadType,
    BadField(usize),
    NoRoom,
}

impl From<ReachError> for ReadError {
    ghost from_gives = { λ reach read. read ≡ unreached_as reach };

    fn from(e: ReachError) -> ReadError {
        match e {
            ReachError::Short => ReadError::Short,
            ReachError::Small => ReadError::BadSize,
        }
    }
}

// A refusal in document 01's numbers.
pub trait Refusal: Copy {
    ghost number: { Self → ℕ };

    ghost offset: { Self → ℕ };

    // Document 01's number.
    fn number(self) -> u8
        ensures { result ≡ number self };

    // The offset of the first bad field, with a 4. With every other number it is 0 and no Option: `Answered.offset` says so.
    fn offset(self) -> usize
        ensures { result ≡ offset self };

    ghost refuses: { (e : Self) → number e ≢ 0 };

    ghost no_field: { (e : Self) → number e ≢ 4 → offset e ≡ 0 };
}

impl Refusal for ReadError {
    ghost number = { λ e. number_of (answered_as (Err e)).outcome };

    ghost offset = { λ e. (answered_as (Err e)).offset };

    ghost refuses = { Prim.search rules };

    ghost no_field = { Prim.search rules };

    fn number(self) -> u8 {
        match self {
            ReadError::Short => 1,
            ReadError::BadSize => 2,
            ReadError::BadType => 3,
            ReadError::BadField(_) => 4,
        }
    }

    fn offset(self) -> usize {
        match self {
            ReadError::BadField(n) => n,
            _ => 0,
        }
    }
}

impl Refusal for WriteError {
    ghost number = { λ e. number_of (wrote_as (Err e)).outcome };

    ghost offset = { λ e. (wrote_as (Err e)).offset };

    ghost refuses = { Prim.search rules };

    ghost no_field = { Prim.search rules };

    fn number(self) -> u8 {
        match self {
            WriteError::BadType => 3,
            WriteError::BadField(_) => 4,
            WriteError::NoRoom => 15,
        }
    }

    // Alike for each error, and no plainer as one: a match names the variants of its own enum.
    fn offset(self) -> usize {
        match self {
            WriteError::BadField(n) => n,
            _ => 0,
        }
    }
}

// Document 01's number of what a call answered, in which 0 is done.
pub fn number_of<T: Copy, E: Refusal>(r: Result<T, E>) -> u8
    ensures { result ≡ told_by E.number r }
{
    match r {
        Ok(_) => 0,
        Err(e) => e.number(),
    }
}

// The offset of the first bad field, with a 4. With every other number it is 0 and no Option: its clause says so.
pub fn offset_of<T: Copy, E: Refusal>(r: Result<T, E>) -> usize
    ensures { result ≡ told_by E.offset r }
{
    match r {
        Ok(_) => 0,
        Err(e) => e.offset(),
    }
}

// How many bytes were written: none when refused, which is 0 and no Option: its clause says so.
pub fn count_of<E: Copy>(r: Result<usize, E>) -> usize
    ensures { result ≡ result_unwrap_or r 0 }
{
    r.unwrap_or(0)
}
