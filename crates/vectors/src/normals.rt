// Normals: document 02's fixed fractions, by the bits of a component.
use fields::Descriptor;
use std::io;
use vertex::Attribute;

// The number of a normal among the attributes of a vertex.
const NORMAL: usize = 10;

// A direct position of two bytes and a direct normal, by VAT group 0: bit 9 is set for nine components, the format stands from bit 10 on.
fn descriptor(vat0: u32) -> Descriptor {
    Descriptor {
        vcd0: 0xA00,
        vcd1: 0,
        vat0,
        vat1: 0,
        vat2: 0,
    }
}

// A component of the normal of such a vertex by its bits: the first of three, or the last of nine. Where it is refused, the refusal's
// number.
fn component(vat0: u32, vertex: &[u8]) -> u32 {
    match vertex::decode(descriptor(vat0), NORMAL, vertex) {
        Ok(normal) => {
            // Its kind, and then its components.
            let words = encoding::attribute_words(normal);
            if matches!(normal, Attribute::Frame(_, _, _)) {
                words[9]
            } else {
                words[1]
            }
        }
        Err(reason) => u32::from(reason),
    }
}

// "s8 has 6 bits, s16 has 14; for unsigned ones use 7 and 15. They apply whatever bit 30 says, and f32 is untouched."
pub fn fractions(rt: &impl Print) -> io::Result<()> {
    let bits = component(0x400, &[0, 0, 0x40, 0, 0]);
    println!(rt; "s8 normal 40: {bits:08X}")?;
    let bits = component(0x4000_0400, &[0, 0, 0x40, 0, 0]);
    println!(rt; "s8 normal 40, bit 30 set: {bits:08X}")?;
    let bits = component(0x400, &[0, 0, 0x80, 0, 0]);
    println!(rt; "s8 normal 80: {bits:08X}")?;
    let bits = component(0, &[0, 0, 0x80, 0, 0]);
    println!(rt; "u8 normal 80: {bits:08X}")?;
    let bits = component(0x4000_0000, &[0, 0, 0x80, 0, 0]);
    println!(rt; "u8 normal 80, bit 30 set: {bits:08X}")?;
    let bits = component(0xC00, &[0, 0, 0x40, 0, 0, 0, 0, 0]);
    println!(rt; "s16 normal 4000: {bits:08X}")?;
    let bits = component(0x800, &[0, 0, 0x80, 0, 0, 0, 0, 0]);
    println!(rt; "u16 normal 8000: {bits:08X}")
}

// The same in the ninth component, and a single that is as it stands.
pub fn others(rt: &impl Print) -> io::Result<()> {
    let bits = component(0x600, &[0, 0, 0, 0, 0, 0, 0, 0, 0, 0, 0x40]);
    println!(rt; "s8 normal of nine components, the last 40: {bits:08X}")?;
    let bits = component(0x1000, &[0, 0, 0x3F, 0x80, 0, 0, 0, 0, 0, 0, 0, 0, 0, 0]);
    println!(rt; "f32 normal 3F800000: {bits:08X}")
}
