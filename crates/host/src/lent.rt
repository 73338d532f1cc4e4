// The walk on a book that a host lends. Each call takes the book out, makes the call by value, and puts the next book in its place. Answers stay numbers and marks, since C reads them.
ghost use Rattle.std.specs.Prelude.{◌≡◌};
ghost use Rattle.host.specs.Lent.{passed_of, ended_of, MovedTo, RanTo};

use book::{Book, Moved, Ran};

// One message: where the next one starts, the answer, beside a 4 the offset of the first bad field, and whether a run stops here.
#[repr(C)]
#[derive(Clone, Copy)]
pub struct Passed {
    pub at: usize,
    pub answer: u8,
    pub offset: usize,
    pub stops: bool,
}

// A run: the position that it reached, and the answer that stopped it.
#[repr(C)]
#[derive(Clone, Copy)]
pub struct Ended {
    pub at: usize,
    pub answer: u8,
}

// What is told of a message, apart from the next book.
impl From<Moved> for Passed {
    ghost from_gives = { λ moved passed. passed ≡ passed_of moved };

    fn from(moved: Moved) -> Passed {
        Passed {
            at: moved.at,
            answer: moved.answer,
            offset: moved.offset,
            stops: moved.stops,
        }
    }
}

// And of a run.
impl From<Ran> for Ended {
    ghost from_gives = { λ ran ended. ended ≡ ended_of ran };

    fn from(ran: Ran) -> Ended {
        Ended {
            at: ran.at,
            answer: ran.answer,
        }
    }
}

// Applies the message at the front of the bytes.
pub fn painterend_apply(book: &mut Book, s: &[u8]) -> Passed
    ensures { MovedTo book.old s.now book.new result }
{
    let moved = book.apply(s, 0);
    *book = moved.book;
    Passed::from(moved)
}

// Applies the messages from the front of the bytes on, until answer 1 or a Msg Size below 4.
pub fn painterend_run(book: &mut Book, s: &[u8]) -> Ended
    ensures { RanTo book.old s.now book.new result }
{
    let ran = book.run(s, 0);
    *book = ran.book;
    Ended::from(ran)
}
