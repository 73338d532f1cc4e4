// How the levels of a book are shown.
use calls::print;
use orders::{Level, LevelRow};
use std::io;
use std::io::Write;

// Price and size, or two empty fields.
pub(crate) fn level(out: &mut impl Write, l: Option<Level>) -> io::Result<()> {
    match l {
        Some(best) => {
            print(out, best.price)?;
            print(out, best.size)
        }
        None => out.write_all(b",,"),
    }
}

// The rows of a side.
pub(crate) fn rows(out: &mut impl Write, side: &[LevelRow]) -> io::Result<()> {
    for r in side {
        row(out, *r)?;
    }
    Ok(())
}

// Price, size and number of orders, or three empty fields.
fn row(out: &mut impl Write, r: LevelRow) -> io::Result<()> {
    if !r.used {
        return out.write_all(b",,,");
    }
    print(out, r.price)?;
    print(out, r.size)?;
    print(out, r.orders)
}
