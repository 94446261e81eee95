// The layout of a vertex: the bytes and the place of each of its 21 attributes, as document 01's "Vertex layout" and source document 004's
// tables of the VCD and the VAT give them.
#![tactic(auto)]

mod parts;
mod weights;

ghost use Rattle.layout.specs.Answers.{Laid, Measured, SpotOf};

use fields::Descriptor;
use fields::attributes::COUNT;
use refusal::Reason;
use weights::Weights;

// "A vertex has 1 to 129 bytes."
pub const LARGEST_VERTEX: usize = 129;

// The length of a vertex, the bytes of each attribute and the sum of those before it.
// Two lists, not one of pairs: `Laid` names both, and C lends two, which get these whole.
#[derive(Clone, Copy, Debug, PartialEq, Eq)]
pub struct Layout {
    pub length: u32,
    pub sizes: [u8; COUNT],
    pub offsets: [u8; COUNT],
}

// The length of a vertex, or the reason why it has none, and where one attribute starts in it, which is told beside a reason too.
#[derive(Clone, Copy, Debug, PartialEq, Eq)]
pub struct Spot {
    pub length: Result<u32, Reason>,
    pub offset: u32,
}

// The layout that a descriptor gives, or the reason why there is none: 9, then 10.
pub fn lay_out(d: Descriptor) -> Result<Layout, Reason>
    ensures { Laid d result }
{
    let weights = Weights::of(d);
    weights.check()?;
    Ok(weights.lay_out())
}

// The length of a vertex, or the reason why it has none: 9, then 10.
pub fn measure(d: Descriptor) -> Result<u32, Reason>
    ensures { Measured d result }
{
    Weights::of(d).length()
}

// The length of a vertex, or the reason why it has none, and where attribute k starts in it; one above 20 starts where the last one ends.
pub fn find(d: Descriptor, k: usize) -> Spot
    ensures { SpotOf d k result }
{
    let weights = Weights::of(d);
    Spot {
        length: weights.length(),
        offset: weights.before(k.min(COUNT)),
    }
}
