// The text of a line: separator, number, price, time and text byte, each once for every line.
#![tactic(auto)]

ghost use Rattle.std.specs.Prelude.{ℕ, map, ◌≡◌, ◌≤◌, [], ◌∷◌, ◌/◌, ◌^◌, length};
ghost use Rattle.columns.specs.Text.{comma, fixed, digits, text_byte};
ghost use Rattle.columns.specs.Columns.{next, number, price, clock, bytes, text};
ghost use Rattle.columns.specs.Held.{room, Shows, Adds};

use std::marker::Model;

// Room for a line, or for a quote, at any scale that a byte can hold. At a scale that can be registered a line has at most 111 bytes.
pub const ROOM: usize = 640;

// A line under construction, which is seen as what it holds: its first len bytes. Its room is an array with a length, since a library has no heap.
#[derive(Clone, Copy)]
pub struct Line {
    bytes: [u8; ROOM],
    len: usize,
}

impl Model for Line {
    ghost use Rattle.std.specs.Prelude.{List, ℕ};
    ghost use Rattle.std.proofs.Common.{sym};

    ghost Value = { List ℕ };

    ghost use Rattle.columns.specs.Held.{held, line_of, IsLine};

    ghost view = { held };

    ghost invariant = { IsLine };

    ghost inverse = { line_of };

    ghost inverse_ok = { λ _ is_line. sym is_line.1 };
}

impl Line {
    // A line that holds nothing.
    pub fn blank() -> Line
        ensures { result ≡ [] }
    {
        Line {
            bytes: [0u8; ROOM],
            len: 0,
        }
    }

    // How many bytes the line holds.
    pub fn count(&self) -> usize
        ensures { result ≡ length self.now }
    {
        self.bytes().len()
    }

    // What the line holds.
    pub fn bytes(&self) -> &[u8]
        ensures whole { result.now ≡ self.now }
        ensures fits { length result.now ≤ room }
        ensures shows { Shows self.now result.now }
    {
        &self.bytes[..self.len]
    }

    // One byte more, as far as there is room.
    pub fn push(&mut self, b: u8)
        ensures { Adds self.old (b ∷ []) self.new }
    {
        if self.len < ROOM {
            self.bytes[self.len] = b;
            self.len += 1;
        }
    }

    pub fn put_separator(&mut self)
        ensures { Adds self.old (comma ∷ []) self.new }
    {
        self.push(b',');
    }

    // The last w digits of n. No format lays them: `{n:0w$}` shows the digits before them too.
    fn put_fixed(&mut self, n: u64, w: u32)
        ensures { Adds self.old (fixed w n) self.new }
    {
        // with no digit the line stays as it is, within its room
        prove!(self.len <= ROOM);
        for i in (0..w).rev() {
            self.push(b'0' + (units(n, i) % 10) as u8);
        }
    }

    // The digits of n without leading zeros. Tried: `write!(self, "{n}")`, and the proof did not close, since it promises a text on Ok alone and nothing promises Ok.
    pub fn put_number(&mut self, n: u64)
        ensures { Adds self.old (digits n) self.new }
    {
        self.put_fixed(n, width(n));
    }

    pub fn number_column(&mut self, n: u64)
        ensures { Adds self.old (next (number n)) self.new }
    {
        self.put_separator();
        self.put_number(n);
    }

    pub fn price_column(&mut self, p: u32, s: u8)
        ensures { Adds self.old (next (price s p)) self.new }
    {
        let scale = s as u32;
        self.put_separator();
        self.put_number(units(p as u64, scale));
        if scale != 0 {
            self.push(b'.');
            self.put_fixed(p as u64, scale);
        }
    }

    // A second of the day with nanoseconds: HH:MM:SS, a point and nine digits.
    pub fn clock_column(&mut self, second: u32, nanos: u32)
        ensures { Adds self.old (next (clock second nanos)) self.new }
    {
        let of_day = second as u64;
        self.put_separator();
        self.put_fixed(of_day / 3600, 2);
        self.push(b':');
        self.put_fixed(of_day / 60 % 60, 2);
        self.push(b':');
        self.put_fixed(of_day % 60, 2);
        self.push(b'.');
        self.put_fixed(nanos as u64, 9);
    }

    // Bytes as they are.
    pub fn bytes_column(&mut self, s: &[u8])
        ensures { Adds self.old (next (bytes s.now)) self.new }
    {
        self.shown_column(s, |b| b);
    }

    // The same, each byte by the firm's rule.
    pub fn text_column(&mut self, s: &[u8])
        ensures { Adds self.old (next (text s.now)) self.new }
    {
        self.shown_column(s, text_byte);
    }

    // Bytes, each as it is shown.
    fn shown_column<F: Fn(u8) -> u8>(&mut self, s: &[u8], shown: F)
        ghost rule: { ℕ → ℕ }
        requires callable { F.IsAlwaysCallable shown }
        requires shows { (b r : ℕ) → F.post shown b r → r ≡ rule b }
        ensures { Adds self.old (comma ∷ map rule s.now) self.new }
    {
        self.put_separator();
        for b in s {
            self.push(shown(*b));
        }
    }
}

// How many digits n has.
fn width(n: u64) -> u32
    ensures { result ≡ length (digits n) }
{
    match n.checked_ilog10() {
        Some(k) => k + 1,
        None => 1,
    }
}

// What stands before the last s digits of n: the units of a price at scale s, and nothing where the power of ten is past 64 bits.
fn units(n: u64, s: u32) -> u64
    ensures { result ≡ n / 10 ^ s }
{
    match 10u64.checked_pow(s) {
        Some(power) => n / power,
        None => 0,
    }
}

// A byte of a firm or a cross type, or a space in its place.
fn text_byte(b: u8) -> u8
    ensures { result ≡ text_byte b }
{
    match b {
        b',' => b' ',
        0x21..=0x7E => b,
        _ => b' ',
    }
}
