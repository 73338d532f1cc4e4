// The walk over a stream of messages laid end to end.
ghost use Rattle.std.specs.Prelude.{◌≡◌, set};
ghost use Rattle.book.specs.Walk.{Moves, Runs, NotesUpTo, Notes};

use crate::Book;
use wire::{ReadError, Refusal};

// One message of a stream: the next state, where the next message starts, the answer, and whether a run stops here. Beside a 4 stands the offset in the message of
// its first bad field, beside any other answer 0. The answer stays a number, since `Moves` promises a state beside each.
#[derive(Clone, Copy)]
pub struct Moved {
    pub book: Book,
    pub at: usize,
    pub answer: u8,
    pub offset: usize,
    pub stops: bool,
}

// A run: the last state, the position that it reached, and the answer that stopped it, a number as document 01 gives it (`Runs`).
#[derive(Clone, Copy)]
pub struct Ran {
    pub book: Book,
    pub at: usize,
    pub answer: u8,
}

// A run that notes answers: besides, how many messages it passed. Its answer is a number, of which `Notes` speaks. The answer is 15 where it passed as many as it may and there is one more.
#[derive(Clone, Copy)]
pub struct Noted {
    pub book: Book,
    pub at: usize,
    pub answer: u8,
    pub count: usize,
}

impl Book {
    // Applies the message at a position. Its bytes are handed on as a part of the stream.
    pub fn apply(self, s: &[u8], at: usize) -> Moved
        ensures { Moves self s.now at result }
    {
        let reach = wire::reach_at(s, at);
        match reach {
            Ok(size) => {
                let end = at + size;
                let read = wire::decode(self.market(), &s[at..end]);
                let r = self.step(read);
                Moved {
                    book: r.book,
                    at: end,
                    answer: r.answer,
                    offset: wire::offset_of(read),
                    stops: false,
                }
            }
            Err(e) => Moved {
                book: self,
                at,
                answer: ReadError::from(e).number(),
                offset: 0,
                stops: true,
            },
        }
    }

    // Applies the messages from a position on, until answer 1 or a Msg Size below 4.
    pub fn run(self, s: &[u8], at: usize) -> Ran
        ensures { Runs self s.now at result }
    {
        // A run is one that notes, without a limit: a second loop, without notes, would say it twice.
        let mut one = [0u8; 1];
        let notes: &mut [u8] = &mut one;
        let r = self.going(s, at, notes, usize::MAX);
        let book = r.book;
        Ran {
            book,
            at: r.at,
            answer: r.answer,
        }
    }

    // The same, with the answer of each message noted: as many messages as there is room for. Where there is one more the answer is 15.
    pub fn run_noted(self, s: &[u8], at: usize, notes: &mut [u8]) -> Noted
        ensures { Notes self s.now at notes.old result notes.new }
    {
        let most = notes.len();
        self.going(s, at, notes, most)
    }

    // At most so many messages, noted as far as there is room. The state is changed in place: a message stores single places of it, and one that changes nothing copies nothing.
    // No `for`: there is no list to go over, since each message says where the next one starts.
    fn going(mut self, s: &[u8], at: usize, notes: &mut [u8], most: usize) -> Noted
        ensures { NotesUpTo self s.now at most notes.old result notes.new }
    {
        let market = self.market();
        let mut here = at;
        let mut count: usize = 0;
        let stop = loop {
            match wire::reach_at(s, here) {
                Ok(size) => {
                    if most <= count {
                        break 15;
                    }
                    let end = here + size;
                    let passed = self.pass(wire::decode(market, &s[here..end]));
                    note(notes, count, wire::number_of(passed));
                    here = end;
                    count += 1;
                }
                Err(e) => break ReadError::from(e).number(),
            }
        };
        Noted {
            book: self,
            at: here,
            answer: stop,
            count,
        }
    }
}

// Where there is room for it.
fn note(notes: &mut [u8], i: usize, answer: u8)
    ensures { notes.new ≡ set notes.old i answer }
{
    if i < notes.len() {
        notes[i] = answer;
    }
}
