// Names of symbols.
ghost use Rattle.std.specs.Prelude.{◌≡◌, ◌≤◌, length};
ghost use Rattle.symbols.specs.State.{name_bytes, padded_name};
ghost use Rattle.symbols.specs.Registering.{byte_bad, name_bad};

use crate::NAME;

// A name has 1 to 11 bytes, each from 0x21 to 0x7E and no comma.
pub(crate) fn name_bad(name: &[u8]) -> bool
    ensures { result ≡ name_bad name.now }
{
    if name.is_empty() || NAME < name.len() {
        return true;
    }
    name.iter().any(|c| byte_bad(*c))
}

fn byte_bad(c: u8) -> bool
    ensures { result ≡ byte_bad c }
{
    c < 0x21 || 0x7E < c || c == b','
}

// A name with zeros after it.
pub(crate) fn padded_name(name: &[u8]) -> [u8; NAME]
    requires { length name.now ≤ name_bytes }
    ensures { result ≡ padded_name name.now }
{
    let mut padded = [0u8; NAME];
    padded[..name.len()].copy_from_slice(name);
    padded
}
