// Numbers and byte arrays in a slice.
ghost use Rattle.std.specs.Prelude.{◌≡◌, ◌≤◌, ℕ, length, take};
ghost use Rattle.wire.specs.Bytes.{value, little_endian, padded_plain, plain_room, IsField};

use crate::PLAIN;

// A number of a message: little-endian, at the width of its type. A field that a message lacks has no bytes, and is 0.
pub(crate) trait Number: Copy {
    ghost width: { ℕ };

    ghost worth: { Self → ℕ };

    // The number that the bytes of a field are.
    fn of(field: &[u8]) -> Self
        requires { IsField width (length field.now) }
        ensures { worth result ≡ value field.now };

    // Writes the number over the bytes of a field.
    fn lay(self, field: &mut [u8])
        requires { IsField width (length field.old) }
        ensures { field.new ≡ little_endian (length field.old) (worth self) };
}

// Four impls with one text: `rt ci` refuses an impl that a macro of the repository writes.
impl Number for u8 {
    ghost width = { 1 };

    ghost worth = { λ x. x };

    fn of(field: &[u8]) -> u8 {
        field.try_into().map_or(0, u8::from_le_bytes)
    }

    fn lay(self, field: &mut [u8]) {
        let bytes = self.to_le_bytes();
        field.copy_from_slice(&bytes[..field.len()]);
    }
}

impl Number for u16 {
    ghost width = { 2 };

    ghost worth = { λ x. x };

    fn of(field: &[u8]) -> u16 {
        field.try_into().map_or(0, u16::from_le_bytes)
    }

    fn lay(self, field: &mut [u8]) {
        let bytes = self.to_le_bytes();
        field.copy_from_slice(&bytes[..field.len()]);
    }
}

impl Number for u32 {
    ghost width = { 4 };

    ghost worth = { λ x. x };

    fn of(field: &[u8]) -> u32 {
        field.try_into().map_or(0, u32::from_le_bytes)
    }

    fn lay(self, field: &mut [u8]) {
        let bytes = self.to_le_bytes();
        field.copy_from_slice(&bytes[..field.len()]);
    }
}

impl Number for u64 {
    ghost width = { 8 };

    ghost worth = { λ x. x };

    fn of(field: &[u8]) -> u64 {
        field.try_into().map_or(0, u64::from_le_bytes)
    }

    fn lay(self, field: &mut [u8]) {
        let bytes = self.to_le_bytes();
        field.copy_from_slice(&bytes[..field.len()]);
    }
}

// The bytes of a field, and zeros after them.
pub(crate) fn plain_at(field: &[u8]) -> [u8; PLAIN]
    requires { length field.now ≤ plain_room }
    ensures { result ≡ padded_plain field.now }
{
    let mut plain = [0u8; PLAIN];
    plain[..field.len()].copy_from_slice(field);
    plain
}

// Writes the first bytes of a byte array over the bytes of a field.
pub(crate) fn put_plain(field: &mut [u8], plain: [u8; PLAIN])
    requires { length field.old ≤ plain_room }
    ensures { field.new ≡ take (length field.old) plain }
{
    field.copy_from_slice(&plain[..field.len()]);
}
