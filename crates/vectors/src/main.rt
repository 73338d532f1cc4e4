// Runs the message layer on a file of calls laid end to end, and prints a line for each. docs/VECTORS.md has the form of the file and of the lines, and how
// the stored output was worked out.
#![tactic(auto)]

mod given;
mod shown;

ghost use Rattle.std.specs.Prelude.{◌≤◌, length};

use calls::{UNTOUCHED, print, print_bytes, print_offset, read_full};
use given::{Call, ROOM, first_call};
use markets::Market;
use shown::print_message;
use std::fs::File;
use std::io::{BufWriter, Write};
use std::{env, io};
use wire::{Message, PLAIN, ReachError, Refusal, count_of, number_of, offset_of};

// The most of a file that is read.
const LONGEST: usize = 65536;

fn make(out: &mut impl Write, call: Call<'_>) -> io::Result<()> {
    match call {
        Call::Reach { at, bytes } => reach(out, at, bytes),
        Call::Decode { market, bytes } => decode(out, market, bytes),
        Call::Make {
            market,
            message,
            plain,
            room,
        } => {
            let mut written = [UNTOUCHED; ROOM];
            encode(out, market, message, plain, &mut written[..room.bytes])
        }
    }
}

// In these pieces, since where the buffered writer cuts hangs on them.
fn reach(out: &mut impl Write, at: usize, bytes: &[u8]) -> io::Result<()> {
    match wire::reach_at(bytes, at) {
        Ok(size) => {
            out.write_all(b"R,0")?;
            print(out, size)
        }
        Err(ReachError::Short) => out.write_all(b"R,1,0"),
        Err(ReachError::Small) => out.write_all(b"R,2,0"),
    }
}

fn decode(out: &mut impl Write, market: Market, bytes: &[u8]) -> io::Result<()> {
    let read = wire::decode(market, bytes);
    out.write_all(b"D")?;
    print(out, number_of(read))?;
    match read {
        Ok(d) => {
            print_bytes(out, &d.plain)?;
            print_message(out, d.message)
        }
        Err(e) => {
            print_bytes(out, &[0; PLAIN])?;
            print_offset(out, e.offset())
        }
    }
}

// With a type outside the table there is nothing to write, and the writer is not called.
fn encode(
    out: &mut impl Write,
    market: Market,
    message: Option<Message>,
    plain: [u8; PLAIN],
    written: &mut [u8],
) -> io::Result<()> {
    let Some(m) = message else {
        out.write_all(b"M,3,0")?;
        return print_bytes(out, written);
    };
    let w = wire::encode(market, m, plain, written);
    out.write_all(b"M")?;
    print(out, number_of(w))?;
    print(out, count_of(w))?;
    print_bytes(out, written)?;
    print_offset(out, offset_of(w))?;
    if wire::bad_field(market, m, plain).unwrap_or(0) != offset_of(w) {
        out.write_all(b"!")?;
    }
    Ok(())
}

fn all_calls(out: &mut impl Write, listed: &[u8]) -> io::Result<()> {
    let mut rest = listed;
    while !rest.is_empty() {
        let Some((call, after)) = first_call(rest) else {
            return out.write_all(b"?\n");
        };
        make(out, call)?;
        out.write_all(b"\n")?;
        rest = after;
    }
    Ok(())
}

// The file that the first argument names, open, unless there is none. It stands in both test programs: a library's function has a contract, and none can say
// what the system hands out.
fn named_file(rt: &HostRuntime) -> Option<File> {
    let path = env::args(rt).ok()?.nth(1)?;
    File::open(rt, path).ok()
}

fn main(rt: HostRuntime) -> io::Result<()> {
    let Some(mut file) = named_file(&rt) else {
        return eprintln!(rt; "vectors: the file can't be opened");
    };
    let mut space = [0; LONGEST];
    let listed = read_full(&mut file, &mut space);
    let mut out = BufWriter::new(rt.alloc(), io::writer(&rt))?;
    all_calls(&mut out, listed)?;
    out.flush()
}
