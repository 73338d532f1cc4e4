// The file that lists the calls.
ghost use Rattle.std.specs.Prelude.{◌≤◌, length};
ghost use Rattle.std.specs.Io.KnownBytes.{Consumes};

use std::io::Read;

// Reads until buf is full, the file ends or a read fails: what was read. `read_exact` would not say how much that is, and `read_to_end` would answer a want of
// memory as it does a read that fails.
pub fn read_full<'a, R: Read>(file: &mut R, buf: &'a mut [u8]) -> &'a [u8]
    ensures within { length result.now ≤ length buf.old }
    ensures read { Consumes (R.remaining file.old) (R.remaining file.new) result.now }
{
    let mut done = 0;
    while done < buf.len() {
        match file.read(&mut buf[done..]) {
            Ok(0) | Err(_) => break,
            Ok(n) => done += n,
        }
    }
    &buf[..done]
}
