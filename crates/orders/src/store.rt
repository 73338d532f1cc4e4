// What was decided, put into the places. Numbers and marks follow the orders, and each home's span covers the orders of that home.
ghost use Rattle.std.specs.Prelude.{◌≡◌, eqb};
ghost use Rattle.places.specs.Homes.{leaves};
ghost use Rattle.orders.specs.State.{orders_each};
ghost use Rattle.orders.specs.Deciding.{with_order, settled_by, emptied_to};

use crate::rules::Verdict;
use crate::{EACH, ORDERS, Order, Orders, no_order};
use places::{Seat, home_of, raised};

impl Orders {
    pub(crate) fn settle(&mut self, seat: Seat, v: Verdict)
        ensures { self.new ≡ settled_by self.old seat.place v }
    {
        match v {
            Verdict::Keeps => {}
            Verdict::Lands(place, order) => self.put(seat, place, order),
            Verdict::Moves(gone, place, order) => {
                self.put(seat, gone, no_order());
                self.put(seat, place, order);
            }
        }
    }

    // An order goes to a place of its symbol, whatever lay there; past the last place nothing is stored. The span of its number's home is raised as far as it lies; where a live number
    // leaves the place, that of its home is lowered to the last order of that home.
    #[tactic(auto, using(crate::proofs::Sizes::home_in))]
    fn put(&mut self, seat: Seat, i: usize, o: Order)
        ensures { self.new ≡ with_order self.old seat.place i o }
    {
        if ORDERS <= i {
            return;
        }
        let from = seat.place * ORDERS;
        let at = from + i;
        let was = self.numbers[at];
        let lived = self.lives[at];
        self.places[at] = o;
        self.numbers[at] = o.number;
        self.lives[at] = o.live;
        let gains = from + home_of(o.number, EACH);
        self.spans[gains] = raised(self.spans[gains], EACH, o.number, o.live, i);
        if leaves(lived, was, o.number, o.live) {
            let loses = from + home_of(was, EACH);
            let span = self.spans[loses];
            self.spans[loses] = seat
                .shelf(EACH)
                .lowered(&self.numbers, &self.lives, span, was);
        }
    }

    // Every place of a symbol is emptied.
    pub(crate) fn empty(&mut self, seat: Seat)
        ensures { self.new ≡ emptied_to self.old seat.place orders_each }
    {
        let from = seat.place * ORDERS;
        let to = from + ORDERS;
        self.places[from..to].fill(no_order());
        self.numbers[from..to].fill(0);
        self.lives[from..to].fill(false);
        self.spans[from..to].fill(0);
    }
}

// Whether a live number leaves a place that is stored to.
#[tactic(auto, unfolding(places::specs::Homes::leaves))]
fn leaves(lived: bool, was: u64, number: u64, live: bool) -> bool
    ensures { result ≡ leaves lived live (eqb was number) }
{
    lived && !(live && was == number)
}
