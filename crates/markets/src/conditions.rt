// The conditions of a trade that a market lists, position by position.
ghost use Rattle.std.specs.Prelude.{◌≡◌};
ghost use Rattle.markets.specs.Conditions.{on_texas, on_arca_american_nyse, listed, member, codes_of, settlement, exemption, hours, detail};

use crate::Market;

// Does the market list this code as a condition? The first of the four positions is 0; beyond the last one nothing is listed: a number and no enum, as `listed` takes it.
#[tactic(auto, using(crate::proofs::Listed::none_beyond), unfolding(crate::specs::Conditions::listed))]
pub fn condition_listed(market: Market, position: usize, code: u8) -> bool
    ensures { result ≡ listed market position code }
{
    match position {
        0 => settlement_listed(market, code),
        1 => exemption_listed(market, code),
        2 => hours_listed(market, code),
        3 => detail_listed(market, code),
        _ => false,
    }
}

fn settlement_listed(market: Market, code: u8) -> bool
    ensures { result ≡ member code (codes_of market settlement) }
{
    match code {
        b'@' => true,
        b'C' => on_texas(market),
        _ => false,
    }
}

fn exemption_listed(market: Market, code: u8) -> bool
    ensures { result ≡ member code (codes_of market exemption) }
{
    match code {
        b' ' | b'F' => true,
        b'O' | b'5' | b'6' => on_arca_american_nyse(market),
        b'7' => on_texas(market),
        _ => false,
    }
}

fn hours_listed(market: Market, code: u8) -> bool
    ensures { result ≡ member code (codes_of market hours) }
{
    matches!(code, b' ' | b'T' | b'U' | b'Z')
}

fn detail_listed(market: Market, code: u8) -> bool
    ensures { result ≡ member code (codes_of market detail) }
{
    match code {
        b' ' | b'I' => true,
        b'V' => on_texas(market),
        _ => false,
    }
}

fn on_texas(market: Market) -> bool
    ensures { result ≡ on_texas market }
{
    market == Market::Texas
}

fn on_arca_american_nyse(market: Market) -> bool
    ensures { result ≡ on_arca_american_nyse market }
{
    matches!(market, Market::Nyse | Market::Arca | Market::American)
}
