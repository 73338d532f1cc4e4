// A cross as what is kept.
ghost use Rattle.std.specs.Prelude.{refl};
ghost use Rattle.record.specs.State.{no_cross, cross_number, cross_live, cross_volume};

use crate::Cross;
use crate::kept::Kept;

impl Kept for Cross {
    ghost number = { cross_number };

    ghost live = { cross_live };

    ghost volume = { cross_volume };

    ghost empty = { no_cross };

    ghost dead = { refl };

    fn number(self) -> u32 {
        self.number
    }

    fn live(self) -> bool {
        self.live
    }

    fn volume(self) -> u32 {
        self.volume
    }

    fn empty() -> Cross {
        Cross {
            live: false,
            number: 0,
            volume: 0,
        }
    }
}
