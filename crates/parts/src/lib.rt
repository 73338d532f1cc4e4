// Reading a file in parts: what a part leaves over comes first in the next.
#![tactic(auto)]

ghost use Rattle.std.specs.Prelude.{◌≡◌};
ghost use Rattle.parts.specs.Carry.{carried, carry_of};

use std::ops::Range;

// Moves the bytes of the range to the front of the buffer and answers how many there are. Where that is no range of the buffer it moves nothing.
pub fn carry(buffer: &mut [u8], left: Range<usize>) -> usize
    ensures { carried result buffer.new ≡ carry_of buffer.old left.start left.end }
{
    let Range { start, end } = left;
    if end < start {
        return 0;
    }
    if buffer.len() < end {
        return 0;
    }
    buffer.copy_within(start..end, 0);
    end - start
}
