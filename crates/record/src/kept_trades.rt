// A trade as what is kept.
ghost use Rattle.std.specs.Prelude.{refl};
ghost use Rattle.record.specs.State.{no_trade, trade_number, trade_live, trade_volume};

use crate::Trade;
use crate::kept::Kept;

impl Kept for Trade {
    ghost number = { trade_number };

    ghost live = { trade_live };

    ghost volume = { trade_volume };

    ghost empty = { no_trade };

    ghost dead = { refl };

    fn number(self) -> u32 {
        self.number
    }

    fn live(self) -> bool {
        self.live
    }

    fn volume(self) -> u32 {
        self.volume
    }

    fn empty() -> Trade {
        Trade {
            live: false,
            number: 0,
            price: 0,
            volume: 0,
        }
    }
}
