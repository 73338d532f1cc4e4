// The library calls that the file lists: each makes its call, prints what it answered and hands the next state back.
use crate::given::{Call, ROOM, Retimed, Stream};
use crate::shown;
use crate::timed::set_nanos;
use book::Book;
use calls::{UNTOUCHED, print, print_bytes, print_offset};
use markets::Market;
use std::io;
use std::io::Write;
use wire::{Decoded, ReadError, Refusal, count_of, number_of, offset_of};

pub(crate) fn make(out: &mut impl Write, b: Book, call: Call<'_>) -> io::Result<Book> {
    match call {
        Call::New(market) => return Ok(Book::new(market)),
        Call::Register { index, scale, name } => return register(out, b, index, scale, name),
        Call::Step(s) => return step(out, b, s),
        Call::Run(s) => return run(out, b, s),
        Call::Quote(index) => quote(out, &b, index)?,
        Call::Volume(index) => volume(out, &b, index)?,
        Call::Depth(index) => depth(out, &b, index)?,
        Call::Read(s) => read(out, b.market(), s)?,
        Call::Write(r) => write(out, b.market(), r)?,
        Call::Line {
            retimed,
            sequence,
            second,
        } => line(out, b, retimed, sequence, second)?,
    }
    Ok(b)
}

fn register(out: &mut impl Write, b: Book, index: u32, scale: u8, name: &[u8]) -> io::Result<Book> {
    let r = b.register(index, name, scale);
    print(out, r.answer)?;
    Ok(r.book)
}

fn step(out: &mut impl Write, b: Book, s: Stream<'_>) -> io::Result<Book> {
    let r = b.apply(s.bytes, s.at);
    print(out, r.answer)?;
    print(out, r.at)?;
    print_offset(out, r.offset)?;
    Ok(r.book)
}

fn run(out: &mut impl Write, b: Book, s: Stream<'_>) -> io::Result<Book> {
    let r = b.run(s.bytes, s.at);
    print(out, r.answer)?;
    print(out, r.at)?;
    Ok(r.book)
}

fn quote(out: &mut impl Write, b: &Book, index: u32) -> io::Result<()> {
    let q = b.quote(index);
    print(out, q.answer)?;
    shown::level(out, q.bid)?;
    shown::level(out, q.ask)
}

fn volume(out: &mut impl Write, b: &Book, index: u32) -> io::Result<()> {
    let v = b.day_volume(index);
    print(out, v.answer)?;
    print(out, v.shares)?;
    print(out, u8::from(v.whole))
}

fn depth(out: &mut impl Write, b: &Book, index: u32) -> io::Result<()> {
    let d = b.depth(index);
    print(out, d.answer)?;
    shown::rows(out, &d.bids)?;
    shown::rows(out, &d.asks)
}

fn read(out: &mut impl Write, market: Market, s: Stream<'_>) -> io::Result<()> {
    let at = s.at;
    match wire::reach_at(s.bytes, at) {
        Ok(n) => {
            let read = wire::decode(market, &s.bytes[at..]);
            print(out, number_of(read))?;
            print(out, at + n)?;
            print_offset(out, offset_of(read))
        }
        Err(e) => {
            print(out, ReadError::from(e).number())?;
            print(out, at)
        }
    }
}

// The message at the start of the bytes, with its own nanoseconds.
fn read_retimed(market: Market, r: Retimed<'_>) -> Result<Decoded, ReadError> {
    let mut d = wire::decode(market, r.bytes)?;
    set_nanos(&mut d.message, r.nanos);
    Ok(d)
}

fn write(out: &mut impl Write, market: Market, r: Retimed<'_>) -> io::Result<()> {
    match read_retimed(market, r) {
        Ok(d) => {
            let mut buffer = [UNTOUCHED; ROOM];
            let written = &mut buffer[..r.room.bytes];
            let done = wire::encode(market, d.message, d.plain, written);
            print_written(out, done, written)
        }
        Err(e) => print_unread(out, e),
    }
}

fn line(
    out: &mut impl Write,
    b: Book,
    r: Retimed<'_>,
    sequence: u32,
    second: u32,
) -> io::Result<()> {
    match read_retimed(b.market(), r) {
        Ok(d) => {
            let mut buffer = [UNTOUCHED; ROOM];
            let written = &mut buffer[..r.room.bytes];
            let done = page::line(b, d.message, d.plain, sequence, second, written);
            print_written(out, done, written)
        }
        Err(e) => print_unread(out, e),
    }
}

fn print_written<E: Refusal>(
    out: &mut impl Write,
    done: Result<usize, E>,
    written: &[u8],
) -> io::Result<()> {
    print(out, number_of(done))?;
    print(out, count_of(done))?;
    print_bytes(out, written)?;
    print_offset(out, offset_of(done))
}

// Of bytes that did not read as a message.
fn print_unread(out: &mut impl Write, e: ReadError) -> io::Result<()> {
    print(out, e.number())?;
    print_offset(out, e.offset())
}
