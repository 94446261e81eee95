// Runs of no-operations: bytes 00.
ghost use Rattle.std.specs.Prelude.{◌+◌, ◌≤◌, length};
ghost use Rattle.walk.specs.Moves.{MovesOn};
ghost use Rattle.plain.specs.Inner.{Quiet, Zeros};

use crate::Passed;

// Zeros are passed in blocks of so many bytes, then of so many, then one by one.
const WIDE: usize = 128;

const NARROW: usize = 8;

// All bits that the bytes of a block have.
fn bits(block: &[u8]) -> u8
    ensures { Quiet block.now result }
{
    let mut all: u8 = 0;
    for byte in block {
        all |= *byte;
    }
    all
}

// Past the zeros from a place on, so many at a time.
// Bytes and places: the place that is answered is one of the whole list.
fn skim(bytes: &[u8], from: usize, end: usize, n: usize) -> usize
    requires { (1 ≤ n) × ((from ≤ end) × (end ≤ length bytes.now)) }
    ensures { Zeros bytes.now from end result }
{
    let mut at = from;
    // A `while`: the place that it comes to is the answer, and what is shorter than a block is left.
    while n <= end - at {
        if bits(&bytes[at..at + n]) != 0 {
            return at;
        }
        at += n;
    }
    at
}

// The place where at most so many units end at the latest.
fn end_of(count: usize, from: usize, most: u32) -> usize
    requires { from ≤ count }
    ensures { (from ≤ result) × ((result ≤ count) × (result ≤ from + most)) }
{
    from + (count - from).min(most as usize)
}

// The bytes 00 from a place on, at most so many: each is a unit.
pub fn take_zeros(bytes: &[u8], from: usize, most: u32) -> Passed
    ensures { MovesOn bytes.now from most result.units result.at }
{
    if bytes.len() < from {
        return Passed { units: 0, at: from };
    }
    let end = end_of(bytes.len(), from, most);
    let far = skim(bytes, from, end, WIDE);
    let near = skim(bytes, far, end, NARROW);
    let at = skim(bytes, near, end, 1);
    Passed {
        units: (at - from) as u32,
        at,
    }
}
