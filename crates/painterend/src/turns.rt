// One turn: the bytes that are left go to the front, a read fills the buffer behind them, and the texts of what is there are laid; or the end is.
ghost use Rattle.std.specs.Prelude.{◌≡◌, ◌≤◌, ◌<◌, ◌↔◌, length, take, IsOk, IfOk};
ghost use Rattle.std.specs.Io.KnownBytes.{IsAtEnd};
ghost use Rattle.std.specs.IoError.{error_kind};
ghost use Rattle.book.specs.State.{Wf};
ghost use Rattle.columns.specs.Held.{room};
ghost use Rattle.parts.specs.Parts.{part_room};
ghost use Rattle.painterend.specs.Turn.{left, awaiting, Failed, Brings, Takes, ReadsOrFails, Ends, Ready, LaysFilled, Unread, Heeds, Turn};

use crate::output::again;
use book::Book;
use page::Laid;
use parts::carry;
use std::io;
use std::io::{ErrorKind, Read};

// The index of the symbol that is registered.
pub(crate) const INDEX: u32 = 7;

// The local second of the day that every line carries.
const SECOND: u32 = 34200;

// A laying that ended for want of room. A number, as the answer of `Laid` is: `Lays` and `Turn` speak of document 01's.
const NO_ROOM: u8 = 15;

// A part has at most 64 KiB, with the bytes that open it.
const PART: usize = 65536;

// What comes after a turn: another one, or nothing more, since the end is laid or since an error was reported.
#[derive(Clone, Copy)]
pub(crate) enum Progress {
    Reading,
    Done,
    Failed,
}

// Between two turns: what the last one laid, how many bytes of the buffer are filled, and what comes next. The counts stand beside the desk's arrays, since there is no heap.
#[derive(Clone, Copy)]
pub(crate) struct State {
    pub(crate) laid: Laid,
    pub(crate) full: usize,
    pub(crate) progress: Progress,
}

impl State {
    // With so many bytes at the front of the buffer, and more to be read behind them.
    pub(crate) fn reading(book: Book, place: u64, kept: usize) -> State
        ensures { result ≡ awaiting book place kept }
    {
        State {
            laid: Laid {
                book,
                at: 0,
                place,
                count: 0,
                answer: 1,
            },
            full: kept,
            progress: Progress::Reading,
        }
    }

    // After an error that was reported: nothing is laid, and nothing more is done.
    pub(crate) fn failed(laid: Laid) -> State
        ensures { Failed result }
    {
        State {
            laid: Laid { count: 0, ..laid },
            full: 0,
            progress: Progress::Failed,
        }
    }
}

// What the program works at: the buffer for a part, and the sheet on which its texts are laid.
#[derive(Drop)]
pub(crate) struct Desk {
    buffer: [u8; PART],
    pub(crate) sheet: [u8; PART],
}

impl Desk {
    pub(crate) fn new() -> Desk {
        Desk {
            buffer: [0; PART],
            sheet: [0; PART],
        }
    }

    // A Msg Size below 4 ends the reading. Where the last laying had no room for the next text, nothing is read.
    pub(crate) fn turn<F: Read>(&mut self, file: &mut F, s: State) -> io::Result<State>
        requires { Ready s }
        ensures turn { IfOk result (λ r. Turn s.laid (left s self.old.buffer) r self.new.buffer self.new.sheet) }
        ensures reads { ReadsOrFails s.laid (left s self.old.buffer) result self.new.buffer (F.remaining file.old) (F.remaining file.new) }
    {
        let l = s.laid;
        if l.answer == 2 {
            return Ok(lay_ending(l, &mut self.sheet));
        }
        let kept = carry(&mut self.buffer, l.at..s.full);
        if l.answer == NO_ROOM {
            return Ok(lay_filled(l, &self.buffer[..kept], &mut self.sheet));
        }
        self.read_on(file, kept, l)
    }

    // The walk wanted more. That the state is sound is asked here and of `heed` and `lay_filled`, and is no invariant: `page`'s `Laid` is a plain struct, which its callers make.
    fn read_on<F: Read>(&mut self, file: &mut F, kept: usize, l: Laid) -> io::Result<State>
        requires { (kept < part_room) × (l.answer ≡ 1) × Wf l.book }
        ensures turn { IfOk result (λ r. Turn l (take kept self.old.buffer) r self.new.buffer self.new.sheet) }
        ensures reads { ReadsOrFails l (take kept self.old.buffer) result self.new.buffer (F.remaining file.old) (F.remaining file.new) }
    {
        let got = fill(file, &mut self.buffer, kept);
        self.heed(got, kept, l)
    }

    // By what a read brought. No byte more is the end of the file.
    fn heed(&mut self, got: io::Result<usize>, kept: usize, l: Laid) -> io::Result<State>
        requires { IfOk got (λ full. full ≤ part_room) × Wf l.book }
        ensures heeds { Heeds got l kept self.old.buffer self.old.sheet result self.new.sheet }
        ensures part { self.new.buffer ≡ self.old.buffer }
    {
        match got {
            Err(e) => unread(e, l, kept),
            Ok(full) => {
                if full == kept {
                    return Ok(lay_ending(l, &mut self.sheet));
                }
                Ok(lay_filled(l, &self.buffer[..full], &mut self.sheet))
            }
        }
    }
}

// Reads once, behind the bytes that are kept, and answers how many bytes of the buffer are filled then.
fn fill<F: Read>(file: &mut F, buffer: &mut [u8], kept: usize) -> io::Result<usize>
    requires { kept < length buffer.old }
    ensures brings { Brings kept buffer.old result buffer.new }
    ensures takes { Takes kept result buffer.new (F.remaining file.old) (F.remaining file.new) }
    ensures ended { IfOk result (λ full. full ≡ kept → IsAtEnd (F.remaining file.new)) }
{
    let n = file.read(&mut buffer[kept..])?;
    Ok(kept + n)
}

// Where a read failed: it is made again if a signal interrupted it.
fn unread(e: io::Error, l: Laid, kept: usize) -> io::Result<State>
    ensures state { Unread l kept result }
    ensures again { IsOk result ↔ (error_kind e ≡ ErrorKind.Interrupted) }
{
    if again(e) {
        return Ok(State::reading(l.book, l.place, kept));
    }
    Err(e)
}

// Lays the texts of a part.
fn lay_filled(l: Laid, part: &[u8], sheet: &mut [u8]) -> State
    requires { (length part.now ≤ part_room) × Wf l.book }
    ensures { LaysFilled l part.now sheet.old result sheet.new }
{
    State {
        laid: page::lay(l.book, part, 0, l.place, SECOND, sheet),
        full: part.len(),
        progress: Progress::Reading,
    }
}

// Lays the end, after which there is nothing more to do.
fn lay_ending(l: Laid, sheet: &mut [u8]) -> State
    requires { room ≤ length sheet.old }
    ensures { Ends l result sheet.new }
{
    let end = page::lay_end(l.book, INDEX, l.answer, sheet);
    State {
        laid: Laid {
            count: wire::count_of(end),
            ..l
        },
        full: 0,
        progress: Progress::Done,
    }
}
