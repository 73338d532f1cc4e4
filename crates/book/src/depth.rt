// The ten best prices of each side of a symbol.
ghost use Rattle.std.specs.Prelude.{◌≡◌};
ghost use Rattle.book.specs.State.{view};
ghost use Rattle.book.specs.Depth.{no_depth, depth_of};

use crate::Book;
use orders::{LEVELS, LevelRow, no_rows};

// Ten rows a side, best first. Those that are not needed come last, and are marked. The number and the marks stay, as the layout is C's.
#[repr(C)]
#[derive(Clone, Copy)]
pub struct Depth {
    pub answer: u8,
    pub bids: [LevelRow; LEVELS],
    pub asks: [LevelRow; LEVELS],
}

impl Book {
    // The levels of both sides. Refused with 5 or 8, no row is used.
    pub fn depth(&self, index: u32) -> Depth
        ensures { result ≡ depth_of index (view self.now) }
    {
        match self.shown(index) {
            Ok(k) => Depth {
                answer: 0,
                bids: self.orders.rows(k, true),
                asks: self.orders.rows(k, false),
            },
            Err(why) => no_depth(u8::from(why)),
        }
    }
}

fn no_depth(answer: u8) -> Depth
    ensures { result ≡ no_depth answer }
{
    Depth {
        answer,
        bids: no_rows(),
        asks: no_rows(),
    }
}
