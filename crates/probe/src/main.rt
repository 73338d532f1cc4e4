// The test bench: makes the library calls that a file lists and prints a line for each. docs/PROBE.md has the form of the file and of the lines.
#![tactic(auto)]

mod given;
mod making;
mod shown;
mod timed;

ghost use Rattle.std.specs.Prelude.{◌≡◌, length};

use book::Book;
use calls::read_full;
use given::call_of;
use making::make;
use markets::Market;
use std::fs::File;
use std::io::{BufWriter, Write};
use std::{env, io};

// The longest file, and room for one byte more, which shows that a file is longer.
const LONGEST: usize = 1048576;

const SPACE: usize = LONGEST + 1;

// A million zeros are too many for the check beside anything else, so the array is made apart.
fn blank_file() -> [u8; SPACE]
    ensures { SPACE ≡ length result }
{
    [0; SPACE]
}

fn all_calls(out: &mut impl Write, listed: &[u8]) -> io::Result<()> {
    let mut b = Book::new(Market::Nyse);
    let mut rest = listed;
    while let Some((letter, fields)) = rest.split_first() {
        let Some((call, after)) = call_of(*letter, fields) else {
            return unknown(out);
        };
        out.write_all(&[*letter])?;
        b = make(out, b, call)?;
        out.write_all(b"\n")?;
        rest = after;
    }
    Ok(())
}

fn unknown(out: &mut impl Write) -> io::Result<()> {
    out.write_all(b"?\n")
}

// The file that the first argument names, open, unless there is none. It stands in both test programs: a library's function has a contract, and none can say
// what the system hands out.
fn named_file(rt: &HostRuntime) -> Option<File> {
    let path = env::args(rt).ok()?.nth(1)?;
    File::open(rt, path).ok()
}

fn main(rt: HostRuntime) -> io::Result<()> {
    let Some(mut file) = named_file(&rt) else {
        return eprintln!(rt; "probe: the file can't be opened");
    };
    let mut space = blank_file();
    let listed = read_full(&mut file, &mut space);
    let mut out = BufWriter::new(rt.alloc(), io::writer(&rt))?;
    if LONGEST < listed.len() {
        unknown(&mut out)?;
    } else {
        all_calls(&mut out, listed)?;
    }
    out.flush()
}
