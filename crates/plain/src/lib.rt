// Units that change nothing, off a plain slice of bytes, where they lie whole from a place on while no draw is open: runs of 00, one unit
// of a fixed length.
#![tactic(auto)]

mod zeros;

ghost use Rattle.plain.specs.Fixed.{Fixed};

pub use zeros::take_zeros;

// How many units were taken, and the place after them; none where there is none that is whole.
// 0 units is a count too: `Fixed`, `MovesOn` and the walks over them add the units up.
#[derive(Clone, Copy)]
pub struct Passed {
    pub units: u32,
    pub at: usize,
}

// Passes so many bytes as one unit, where so many are there. That they are a unit that changes nothing the caller knows by their opcode.
// Bytes and a place: the place that is answered is one of the whole list.
#[tactic(auto, unfolding(crate::specs::Fixed::there_at))]
pub fn take_fixed(bytes: &[u8], at: usize, n: usize) -> Passed
    ensures { Fixed bytes.now at n result.units result.at }
{
    if at <= bytes.len() && n <= bytes.len() - at {
        Passed {
            units: 1,
            at: at + n,
        }
    } else {
        Passed { units: 0, at }
    }
}
