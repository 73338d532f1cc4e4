// The five markets that send this feed: their numbers, and the conditions that each of them lists.
#![tactic(auto)]

mod conditions;

ghost use Rattle.std.specs.Prelude.{◌≡◌};
ghost use Rattle.std.specs.Option.{ok_or};
ghost use Rattle.markets.specs.Numbers.{market_number, named_of, market_of};

pub use conditions::condition_listed;

#[derive(Clone, Copy, PartialEq, Eq)]
pub enum Market {
    Nyse,
    Arca,
    American,
    National,
    Texas,
}

// A number that names no market.
#[derive(Clone, Copy)]
pub struct UnknownMarket(pub u16);

// The market of source 002's Market ID.
impl TryFrom<u16> for Market {
    type Error = UnknownMarket;

    ghost try_from_gives = { λ number result. result ≡ ok_or (named_of number) (record { 0 = number }) };

    #[tactic(auto, using(crate::proofs::Names::unnamed), unfolding(crate::specs::Numbers::named_of))]
    fn try_from(number: u16) -> Result<Market, UnknownMarket> {
        match number {
            1 => Ok(Market::Nyse),
            3 => Ok(Market::Arca),
            9 => Ok(Market::American),
            10 => Ok(Market::National),
            11 => Ok(Market::Texas),
            _ => Err(UnknownMarket(number)),
        }
    }
}

// The Market ID, by which a market is kept.
impl From<Market> for u16 {
    ghost from_gives = { λ market number. number ≡ market_number market };

    fn from(market: Market) -> u16 {
        match market {
            Market::Nyse => 1,
            Market::Arca => 3,
            Market::American => 9,
            Market::National => 10,
            Market::Texas => 11,
        }
    }
}

// The market that is kept as a number: that of its Market ID, and NYSE with any other number.
#[tactic(auto, using(crate::proofs::Names::market_or_nyse), unfolding(crate::specs::Numbers::market_of))]
pub fn market_of(number: u16) -> Market
    ensures { result ≡ market_of number }
{
    Market::try_from(number).unwrap_or(Market::Nyse)
}
