// A change as one flat value, for a caller that hands its fields on one by one.
ghost use Rattle.std.specs.Prelude.{◌≡◌};
ghost use Rattle.orders.specs.Edits.{change_as};

use crate::Change;

// What a change does, without the order that it is about.
#[derive(Clone, Copy, PartialEq, Eq)]
pub enum Kind {
    Nothing,
    Add,
    Modify,
    Delete,
    Execute,
    Replace,
}

// The order that a change is about, the old one of a replace, and the new number of a replace. What a kind lacks is 0.
#[derive(Clone, Copy)]
pub struct Edit {
    pub kind: Kind,
    pub order: u64,
    pub fresh: u64,
    pub buy: bool,
    pub price: u32,
    pub volume: u32,
}

// A change, flat.
pub fn edit_of(c: Change) -> Edit
    ensures { change_as result ≡ c }
{
    let nothing = Edit {
        kind: Kind::Nothing,
        order: 0,
        fresh: 0,
        buy: false,
        price: 0,
        volume: 0,
    };
    match c {
        Change::Nothing => nothing,
        Change::Add(order, buy, price, volume) => Edit {
            kind: Kind::Add,
            order,
            buy,
            price,
            volume,
            ..nothing
        },
        Change::Modify(order, buy, price, volume) => Edit {
            kind: Kind::Modify,
            order,
            buy,
            price,
            volume,
            ..nothing
        },
        Change::Delete(order) => Edit {
            kind: Kind::Delete,
            order,
            ..nothing
        },
        Change::Execute(order, volume) => Edit {
            kind: Kind::Execute,
            order,
            volume,
            ..nothing
        },
        Change::Replace(order, fresh, buy, price, volume) => Edit {
            kind: Kind::Replace,
            order,
            fresh,
            buy,
            price,
            volume,
        },
    }
}
