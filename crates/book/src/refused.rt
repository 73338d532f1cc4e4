// Why a message that is all there is not done.
ghost use Rattle.std.specs.Prelude.{◌≡◌};
ghost use Rattle.std.proofs.Common.{rules};
ghost use Rattle.book.specs.Refused.{refused_number, refused_offset};
ghost use Rattle.book.specs.declared.refused.Refused.TheVariants.{Unread, Untimely, Unfitting};

use orders::Unfit;
use symbols::TurnError;
use wire::{ReadError, Refusal};

#[derive(Clone, Copy, PartialEq, Eq)]
pub(crate) enum Refused {
    Unread(ReadError),
    Untimely(TurnError),
    Unfitting(Unfit),
}

impl From<ReadError> for Refused {
    ghost from_gives = { λ e r. r ≡ Unread e };

    fn from(e: ReadError) -> Refused {
        Refused::Unread(e)
    }
}

impl From<TurnError> for Refused {
    ghost from_gives = { λ e r. r ≡ Untimely e };

    fn from(e: TurnError) -> Refused {
        Refused::Untimely(e)
    }
}

impl From<Unfit> for Refused {
    ghost from_gives = { λ e r. r ≡ Unfitting e };

    fn from(e: Unfit) -> Refused {
        Refused::Unfitting(e)
    }
}

impl Refusal for Refused {
    ghost number = { refused_number };

    ghost offset = { refused_offset };

    ghost refuses = { Prim.search rules };

    ghost no_field = { Prim.search rules };

    fn number(self) -> u8 {
        match self {
            Refused::Unread(e) => e.number(),
            Refused::Untimely(e) => u8::from(e),
            Refused::Unfitting(e) => u8::from(e),
        }
    }

    fn offset(self) -> usize {
        match self {
            Refused::Unread(e) => e.offset(),
            _ => 0,
        }
    }
}
