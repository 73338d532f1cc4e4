// What can be done to the trades or the crosses of one symbol: its own places, and beside them the tickets that searches read.
// They come as two slices: a struct of both, lent from two fields of the record, was tried, and the borrow checker does not cover it.
ghost use Rattle.std.specs.Prelude.{◌≡◌, ◌==◌, true, suc, length, position};
ghost use Rattle.places.specs.Tickets.{ticket};
ghost use Rattle.record.specs.Deciding.{Keeps, Replaces};

use crate::Lost;
use crate::kept::Kept;

// The ticket of an empty place.
const EMPTY: u64 = 0;

// One more is kept. It is left out where no place is empty, and where its number is kept already: a full record isn't searched for the number.
pub(crate) fn keep<T: Kept>(places: &mut [T], tickets: &mut [u64], x: T) -> Result<(), Lost>
    requires live { T.live x ≡ true }
    requires beside { length tickets.old ≡ length places.old }
    ensures { Keeps T.number T.live places.old tickets.old x places.new tickets.new result }
{
    let new = ticket(x);
    match place_of(tickets, EMPTY) {
        Some(i) if place_of(tickets, new).is_none() => {
            places[i] = x;
            tickets[i] = new;
            Ok(())
        }
        _ => Err(Lost),
    }
}

// What is kept of a number makes way for another of that number, or for an empty place.
pub(crate) fn replace<T: Kept>(
    places: &mut [T],
    tickets: &mut [u64],
    number: u32,
    x: T,
) -> Result<(), Lost>
    requires same { T.live x ≡ true → T.number x ≡ number }
    requires beside { length tickets.old ≡ length places.old }
    ensures { Replaces T.number T.live places.old tickets.old number x places.new tickets.new result }
{
    let Some(i) = place_of(tickets, ticket_of(number)) else {
        return Err(Lost);
    };
    places[i] = x;
    tickets[i] = ticket(x);
    Ok(())
}

// The first place with a ticket.
fn place_of(tickets: &[u64], ticket: u64) -> Option<usize>
    ensures { result ≡ position (λ t. t == ticket) tickets.now }
{
    tickets.iter().position(|&t| t == ticket)
}

// What searches read of a place.
pub(crate) fn ticket<T: Kept>(x: T) -> u64
    ensures { result ≡ ticket T.number T.live x }
{
    if x.live() {
        ticket_of(x.number())
    } else {
        EMPTY
    }
}

fn ticket_of(number: u32) -> u64
    ensures { result ≡ suc number }
{
    u64::from(number) + 1
}
