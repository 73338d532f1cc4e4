// Laying what is printed into a lent buffer: the texts of the messages of a stream one behind the other, and the end.
ghost use Rattle.std.specs.Prelude.{◌≡◌, ◌≤◌, length};
ghost use Rattle.book.specs.State.{view};
ghost use Rattle.columns.specs.Held.{room};
ghost use Rattle.page.specs.Printing.{printed, laid};
ghost use Rattle.page.specs.Printout.{closing};
ghost use Rattle.page.specs.Laying.{Lays, LaysNoted, RunsSome};

use crate::LineError;
use crate::lines::listing_of;
use crate::printing::{LAST_SECOND, emit};
use crate::texts::{Setting, end_lines};
use book::{Book, Noted};
use columns::ROOM;
use wire::Refusal;

// As many answers are noted at a time: a part of 64 KiB has seldom more messages.
const NOTES: usize = 4096;

// A run that met its end in want of notes, and a laying in want of room. Document 01's number and no Option, as `answer` of `Laid` and of `Noted` is.
const NO_ROOM: u8 = 15;

// Texts that are laid: where the next message starts, the place of the last one, how many bytes there are, and of how many messages.
#[derive(Clone, Copy)]
struct Texts {
    at: usize,
    place: u64,
    count: usize,
    laid: usize,
}

// After the messages laid: the state, where the next message starts, the place of the last one, how many bytes are laid, and why no more: the answer that stopped
// the walk, or 15 where the next text might not fit. It stays document 01's number, as that of a run does: `Lays` speaks of it, and `laying_answers` tells which it can be.
#[derive(Clone, Copy)]
pub struct Laid {
    pub book: Book,
    pub at: usize,
    pub place: u64,
    pub count: usize,
    pub answer: u8,
}

// Applies the messages of a stream from a position on and lays the text of each to the start of out. `place` is that of the message before. The caller gives the
// local second of the day; past its last one the answer is 14, and nothing is applied.
//
// A run notes the answers of many messages, and their texts are laid by the notes. Where out is full before all of them have theirs, the state is run again over those that have.
pub fn lay(book: Book, stream: &[u8], at: usize, place: u64, second: u32, out: &mut [u8]) -> Laid
    ensures { Lays book stream.now at place second out.old result out.new }
{
    if LAST_SECOND < second {
        return Laid {
            book,
            at,
            place,
            count: 0,
            answer: LineError::BadSecond.number(),
        };
    }
    let market = book.market();
    let mut kept = [0u8; NOTES];
    let notes: &mut [u8] = &mut kept;
    let mut b = book;
    let mut here = at;
    let mut p = place;
    let mut n: usize = 0;
    // No `for`: each run says whether there is more.
    loop {
        let names = b.names();
        let setting = Setting {
            market,
            names,
            second,
        };
        let r = b.run_noted(stream, here, notes);
        let t = setting.lay_noted(stream, here, notes, p, out, n);
        if t.laid < r.count {
            let q = run_some(b, stream, here, notes, t.laid);
            return Laid {
                book: q.book,
                at: q.at,
                place: t.place,
                count: t.count,
                answer: NO_ROOM,
            };
        }
        b = r.book;
        here = r.at;
        p = t.place;
        n = t.count;
        if r.answer != NO_ROOM {
            return Laid {
                book: b,
                at: here,
                place: p,
                count: n,
                answer: r.answer,
            };
        }
    }
}

// The run over no more messages than these.
fn run_some(b: Book, stream: &[u8], at: usize, notes: &mut [u8], most: usize) -> Noted
    requires { most ≤ length notes.old }
    ensures { RunsSome b stream.now at most result }
{
    b.run_noted(stream, at, &mut notes[..most])
}

impl Setting {
    // Lays the texts of the messages of a stream whose answers are noted, each behind the one before, from the first `filled` bytes of out on: as long as there is a note, room and a message.
    fn lay_noted(
        &self,
        stream: &[u8],
        at: usize,
        notes: &[u8],
        place: u64,
        out: &mut [u8],
        filled: usize,
    ) -> Texts
        requires { filled ≤ length out.old }
        ensures { LaysNoted self.now.market self.now.names stream.now at notes.now place self.now.second out.old filled result out.new }
    {
        let mut t = Texts {
            at,
            place,
            count: filled,
            laid: 0,
        };
        for answer in notes {
            if out.len() - t.count < ROOM {
                return t;
            }
            let Ok(size) = wire::reach_at(stream, t.at) else {
                return t;
            };
            let end = t.at + size;
            t.place = t.place.wrapping_add(1);
            t.count += self.lay_passed(&stream[t.at..end], *answer, t.place, &mut out[t.count..]);
            t.at = end;
            t.laid += 1;
        }
        t
    }
}

// `E` with the answer that stopped the walk, and the quote of the symbol with this index.
pub fn lay_end(book: Book, index: u32, answer: u8, out: &mut [u8]) -> Result<usize, LineError>
    ensures out_after { printed result out.new ≡ laid (closing (view book) index answer) out.old }
    ensures fits { length (closing (view book) index answer) ≤ room }
{
    let s = listing_of(book.symbol(index));
    let text = end_lines(answer, s.scale, book.quote(index));
    emit(text.bytes(), out)
}
