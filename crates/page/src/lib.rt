// The page: the TAQ lines of an add (100) and a cross (111), and what the program prints, into a lent buffer.
//
// Every promise is an equation with a definition of specs/, where document 01's rules stand. No public function asks anything of its caller.
#![tactic(auto)]

mod laying;
mod levels;
mod lines;
mod printing;
mod texts;

ghost use Rattle.std.specs.Prelude.{Err};
ghost use Rattle.std.proofs.Common.{rules};
ghost use Rattle.wire.specs.Outcome.{number_of};
ghost use Rattle.page.specs.Printing.{printed_as};

pub use laying::{Laid, lay, lay_end};
pub use levels::lay_levels;
pub use printing::line;
use wire::Refusal;

// Why nothing is printed. A bad field comes with the offset of the first one.
#[derive(Clone, Copy, PartialEq, Eq)]
pub enum LineError {
    BadType,
    BadField(usize),
    NoSymbol,
    BadSecond,
    NoRoom,
}

impl Refusal for LineError {
    ghost number = { λ e. number_of (printed_as (Err e)).outcome };

    ghost offset = { λ e. (printed_as (Err e)).offset };

    ghost refuses = { Prim.search rules };

    ghost no_field = { Prim.search rules };

    fn number(self) -> u8 {
        match self {
            LineError::BadType => 3,
            LineError::BadField(_) => 4,
            LineError::NoSymbol => 5,
            LineError::BadSecond => 14,
            LineError::NoRoom => 15,
        }
    }

    fn offset(self) -> usize {
        match self {
            LineError::BadField(offset) => offset,
            _ => 0,
        }
    }
}
