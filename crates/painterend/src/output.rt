// Writing what was laid to standard output, and what failed to standard error.
ghost use Rattle.std.specs.Prelude.{◌⊎◌, ◌≡◌, ◌≤◌, ◌↔◌, length, is_ok, IsTrue};
ghost use Rattle.std.specs.IoError.{error_kind};
ghost use Rattle.painterend.specs.Turn.{Failed, Puts, Writes};

use crate::turns::State;
use page::Laid;
use std::io;
use std::io::{Cursor, Eprint, ErrorKind, Write};

// Writes the bytes that the last turn laid; what cannot be written is reported.
pub(crate) fn written<R: Eprint, P: Write>(rt: &R, paper: &mut P, sheet: &[u8], s: State) -> State
    requires { s.laid.count ≤ length sheet.now }
    ensures state { (result ≡ s) ⊎ Failed result }
    ensures bytes { Writes s result sheet.now (P.contents paper.old) (P.contents paper.new) }
{
    match put(paper, &sheet[..s.laid.count]) {
        Ok(()) => s,
        Err(e) => reported(rt, "standard output", e, s.laid),
    }
}

// Writes all of it. Where that fails, its first bytes may be written. A write that a signal interrupts is made again; one that takes nothing has failed.
// It is not std's `write_all`, which says nothing of the bytes that came before a failure: `Prints` does.
fn put<P: Write>(paper: &mut P, text: &[u8]) -> io::Result<()>
    ensures { Puts (is_ok result) text.now (P.contents paper.old) (P.contents paper.new) }
{
    let mut rest = text;
    for _ in 0..u64::MAX {
        if rest.is_empty() {
            return Ok(());
        }
        match paper.write(rest) {
            Ok(0) => return Err(io::Error::from(ErrorKind::WriteZero)),
            Ok(n) => rest = &rest[n..],
            Err(e) => {
                if !again(e) {
                    return Err(e);
                }
            }
        }
    }
    Err(io::Error::from(ErrorKind::Interrupted))
}

// Was it a signal that stopped the read or the write?
pub(crate) fn again(e: io::Error) -> bool
    ensures { IsTrue result ↔ (error_kind e ≡ ErrorKind.Interrupted) }
{
    e.kind() == ErrorKind::Interrupted
}

// An error is reported, and nothing more is done.
pub(crate) fn reported<R: Eprint>(rt: &R, what: &str, e: io::Error, laid: Laid) -> State
    ensures { Failed result }
{
    fail(rt, what, e);
    State::failed(laid)
}

// Room for the system's words: an array, since there is no heap.
const SPACE: usize = 512;

// One line on standard error: what failed, and the reason in the system's words, without the number that std puts behind them.
pub(crate) fn fail<R: Eprint>(rt: &R, what: &str, e: io::Error) {
    let mut space = [0u8; SPACE];
    let mut cursor = Cursor::new(&mut space[..]);
    let _ = write!(cursor, "{e}");
    let n = (cursor.position() as usize).min(SPACE);
    let text = std::str::from_utf8(&space[..n]).unwrap_or("");
    let reason = match text.split_once(" (os error ") {
        Some((words, _)) => words,
        None => text,
    };
    let _ = eprintln!(rt; "{what}: {reason}");
}
