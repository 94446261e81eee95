// Attributes of a vertex as words, ten for each, the kind and nine values: one alone, or all 21 in order. `vertex` decodes the same to
// floats; here they are told in one pass, without a test of each byte, since that is faster.
#![tactic(auto)]

mod components;
mod measured;

ghost use Rattle.whole.specs.Whole.{DecodesOne, DecodesAll};

use fields::{Descriptor, attributes};
use measured::Vertex;
use refusal::Reason;

// Decodes a whole vertex into words, ten for each attribute, or says why it is refused: 9, 10, then 19 by its length.
pub fn decode_all(
    descriptor: Descriptor,
    vertex: &[u8],
    values: &mut [u32; 210],
) -> Result<(), Reason>
    ensures { DecodesAll descriptor vertex.now values.old result values.new }
{
    let length = layout::measure(descriptor)?;
    if vertex.len() != length as usize {
        return Err(Reason::NotOfLayout);
    }
    Vertex { descriptor, vertex }.tell(values);
    Ok(())
}

// Decodes one attribute of a vertex into ten words, or says why it is refused: 9, 10, then 19 by its number or the length.
pub fn decode_one(
    descriptor: Descriptor,
    k: usize,
    vertex: &[u8],
    values: &mut [u32; 10],
) -> Result<(), Reason>
    ensures { DecodesOne descriptor k vertex.now values.old result values.new }
{
    let spot = layout::find(descriptor, k);
    let length = spot.length?;
    if k >= attributes::COUNT || vertex.len() != length as usize {
        return Err(Reason::NotOfLayout);
    }
    Vertex { descriptor, vertex }.tell_alone(k, spot.offset, values);
    Ok(())
}
