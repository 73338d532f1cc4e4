// The bureau's program: it reads a file of messages, part by part, and prints lines, refusals and the last quote.
//
// What is printed stands in `page`, how leftovers open the next part in `parts`. Here are the file and the order of things: fill, lay, write, carry.
#![tactic(auto)]

mod output;
mod turns;

ghost use Rattle.painterend.specs.Program.{Starts};
ghost use Rattle.painterend.specs.Course.{Ran, Prints};

use book::Book;
use markets::Market;
use output::{fail, reported, written};
use std::env::{Env, FillError};
use std::fs::{File, Files};
use std::io;
use std::io::{Eprint, Print, Read, Write};
use turns::{Desk, INDEX, Progress, State};

const SCALE: u8 = 4;

// As long as the system lets a name be. An array of that size takes it, since there is no heap.
const NAME_ROOM: usize = 4096;

// What the system calls a name that is too long, and bytes that are no text. These stay numbers: the kinds of std have other words, and what is printed may not change.
const ENAMETOOLONG: i32 = 36;

const EILSEQ: i32 = 84;

// A new state of the program's market, with its symbol.
fn start() -> Book
    ensures { Starts result }
{
    let b = Book::new(Market::Nyse);
    let r = b.register(INDEX, b"ABC", SCALE);
    r.book
}

// A proved loop has to end, and nothing says that a file does: there are so many turns that no run uses them up.
fn all_parts<R: Eprint, F: Read, P: Write>(rt: &R, file: &mut F, path: &str, paper: &mut P) -> State
    ensures ran { Ran result }
    ensures prints { Prints result (F.remaining file.old) (F.remaining file.new) (P.contents paper.old) (P.contents paper.new) }
{
    let mut desk = Desk::new();
    let mut s = State::reading(start(), 0, 0);
    for _ in 0..u64::MAX {
        let Progress::Reading = s.progress else {
            return s;
        };
        s = match desk.turn(file, s) {
            Ok(r) => written(rt, paper, &desk.sheet, r),
            Err(e) => reported(rt, path, e, s.laid),
        };
    }
    s
}

fn print<R: Files + Print + Eprint>(rt: &R, path: &str) {
    match File::open(rt, path) {
        Ok(mut file) => {
            let mut paper = io::writer(rt);
            all_parts(rt, &mut file, path, &mut paper);
        }
        Err(e) => fail(rt, path, e),
    }
}

// Is there such a word? The first, at 0, is the program's own name.
fn has_word<E: Env>(words: &E, i: usize) -> bool {
    let mut word = [0u8; NAME_ROOM];
    match words.arg(i, &mut word) {
        Err(FillError::NotPresent) => false,
        _ => true,
    }
}

// The file's name. It has to be text, since std opens no other.
fn name_of<'a, E: Env>(words: &E, space: &'a mut [u8]) -> io::Result<&'a str> {
    let n = words
        .arg(1, space)
        .map_err(|_| io::Error::from_raw_os_error(ENAMETOOLONG))?;
    std::str::from_utf8(&space[..n]).map_err(|_| io::Error::from_raw_os_error(EILSEQ))
}

fn main(rt: HostRuntime) {
    if !has_word(&rt, 1) || has_word(&rt, 2) {
        let _ = eprintln!(rt; "painterend: name a file of messages, as in: painterend FILE");
        return;
    }
    let mut space = [0u8; NAME_ROOM];
    match name_of(&rt, &mut space) {
        Ok(path) => print(&rt, path),
        Err(e) => fail(&rt, "painterend: the file's name", e),
    }
}
