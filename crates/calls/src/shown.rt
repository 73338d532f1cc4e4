// How answers are shown: each value after a comma.
ghost use Rattle.std.specs.Prelude.{◌∷◌, IfSome, OnOk};
ghost use Rattle.std.specs.Io.KnownBytes.{Appends};
ghost use Rattle.calls.specs.Shown.{comma, hex_of, hex, offset_shown};

use std::fmt::Display;
use std::io;
use std::io::Write;

// A value after its comma.
pub fn print<W: Write, T: Display + Drop>(out: &mut W, value: T) -> io::Result<()>
    ensures { OnOk result (IfSome (T.output value) (λ text. Appends (W.contents out.old) (W.contents out.new) (comma ∷ text))) }
{
    write!(out, ",{value}")
}

// Bytes after one comma, each in two hex digits.
pub fn print_bytes<W: Write>(out: &mut W, bytes: &[u8]) -> io::Result<()>
    ensures { OnOk result (Appends (W.contents out.old) (W.contents out.new) (comma ∷ hex bytes.now)) }
{
    out.write_all(b",")?;
    for byte in bytes {
        print_byte(out, *byte)?;
    }
    Ok(())
}

#[tactic(auto, using(std::proofs::lemmas::Fmt::hex_byte))]
fn print_byte<W: Write>(out: &mut W, byte: u8) -> io::Result<()>
    ensures { OnOk result (Appends (W.contents out.old) (W.contents out.new) (hex_of byte)) }
{
    write!(out, "{byte:02x}")
}

// The offset of a bad field, which stands at the end of a line; with none it is 0, and nothing stands there.
pub fn print_offset<W: Write>(out: &mut W, offset: usize) -> io::Result<()>
    ensures { OnOk result (Appends (W.contents out.old) (W.contents out.new) (offset_shown offset)) }
{
    if offset != 0 {
        print(out, offset)?;
    }
    Ok(())
}
