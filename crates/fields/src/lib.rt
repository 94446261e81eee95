// What a descriptor says of each of a vertex's 21 attributes, as document 01's "Vertex layout" and source document 004's tables of the VCD
// and the VAT give it.
// Attributes, counts and formats are numbers: each function below is promised for every number, also one that no descriptor has.
#![tactic(auto)]

pub mod attributes;

ghost use Rattle.std.specs.Prelude.{◌≡◌, ◌%◌, ◌<◌};
ghost use Rattle.fields.specs.Fields.{mode_of, mode_named, index_bytes, normal_bits, fraction_bits, indices_of, field_of};
ghost use Rattle.fields.specs.Components.{is_colour, colour_width, components_of};
ghost use Rattle.fields.specs.Inner.{vat_of, normal_indices};

use attributes::{COLOUR0, COLOUR1, COUNT, NORMAL, POSITION};

// What names a vertex's attributes and their formats: the two words of the VCD, and the three of the VAT in use.
#[derive(Clone, Copy, Debug, PartialEq, Eq)]
pub struct Descriptor {
    pub vcd0: u32,
    pub vcd1: u32,
    pub vat0: u32,
    pub vat1: u32,
    pub vat2: u32,
}

// How an attribute is present: not at all, in the vertex itself, or as an index of 8 or 16 bits.
#[derive(Clone, Copy, Debug, PartialEq, Eq)]
pub enum Mode {
    Absent,
    Direct,
    Index8,
    Index16,
}

impl Mode {
    // The mode that a field of two bits of the VCD names; a matrix has one bit.
    pub fn of(bits: u32) -> Mode
        ensures { result ≡ mode_named bits }
    {
        match bits {
            0 => Mode::Absent,
            1 => Mode::Direct,
            2 => Mode::Index8,
            _ => Mode::Index16,
        }
    }

    // The bytes of an index; none where there is no index. By the mode's number: a match becomes a jump through a table, and is slower.
    pub fn index_width(self) -> u32
        ensures { result ≡ index_bytes self }
    {
        (self as u32).saturating_sub(1)
    }
}

// What a descriptor says of one attribute. A matrix is absent or direct.
#[derive(Clone, Copy, Debug, PartialEq, Eq)]
pub struct Field {
    pub mode: Mode,
    pub count: u32,
    pub format: u32,
    pub fraction: u32,
    pub indices: u32,
}

// The count bit, the format and the shift of an attribute, as the VAT has them.
#[derive(Clone, Copy)]
pub struct Vat {
    pub count: u32,
    pub format: u32,
    pub shift: u32,
}

// A field of the VAT at its places: the count bit, the three bits of the format and the five of the shift.
fn vat_at(count: u32, format: u32, shift: u32) -> Vat
    ensures { result ≡ record { count = count % 2; format = format % 8; shift = shift % 32 } }
{
    Vat {
        count: count % 2,
        format: format % 8,
        shift: shift % 32,
    }
}

// The fraction bits of a normal's component, by its format (document 02, L2).
fn normal_bits(format: u32) -> u32
    ensures { result ≡ normal_bits format }
{
    match format {
        0 => 7,
        1 => 6,
        2 => 15,
        3 => 14,
        _ => 0,
    }
}

// The fraction bits of a component of attribute k: a normal's are its own; of others 8-bit ones have none where bit 30 is clear.
#[tactic(auto, unfolding(crate::specs::Fields::fraction_bits))]
fn fraction_bits(k: usize, format: u32, bit30: u32, shift: u32) -> u32
    ensures { result ≡ fraction_bits k format bit30 shift }
{
    if k == NORMAL {
        return normal_bits(format);
    }
    if 2 <= format {
        return shift;
    }
    if bit30 == 0 {
        return 0;
    }
    shift
}

// Three indices for a normal whose count bit and group 0 bit 31 are both set.
pub fn normal_indices(vat0: u32) -> u32
    ensures { (result ≡ normal_indices vat0) × (result < 4) }
{
    if (vat0 >> 9) % 2 == 1 && (vat0 >> 31) % 2 == 1 {
        3
    } else {
        1
    }
}

impl Descriptor {
    // How attribute k is present: one bit for a matrix, two for others.
    #[tactic(auto, using(crate::proofs::Modes::matrix_mode, crate::proofs::Modes::fore_mode, crate::proofs::Modes::texture_mode, crate::proofs::Modes::none_mode))]
    fn mode(self, k: usize) -> Mode
        ensures { result ≡ mode_named (mode_of self k) }
    {
        if k < POSITION {
            return Mode::of((self.vcd0 >> k) % 2);
        }
        if k < attributes::TEXTURE0 {
            return Mode::of((self.vcd0 >> (2 * k - 9)) % 4);
        }
        if k < COUNT {
            return Mode::of((self.vcd1 >> (2 * k - 26)) % 4);
        }
        Mode::Absent
    }

    // What the VAT says of attribute k; a matrix has none of its fields, and normals and colours have no shift.
    #[tactic(auto, unfolding(crate::specs::Fields::count_of, crate::specs::Fields::format_of, crate::specs::Fields::bits_at, crate::specs::Fields::counts, crate::specs::Fields::formats, crate::specs::Fields::shifts))]
    fn vat(self, k: usize) -> Vat
        ensures { result ≡ vat_of self k }
    {
        let a = self.vat0;
        let b = self.vat1;
        let c = self.vat2;
        match k {
            POSITION => vat_at(a >> 0, a >> 1, a >> 4),
            NORMAL => vat_at(a >> 9, a >> 10, 0),
            COLOUR0 => vat_at(a >> 13, a >> 14, 0),
            COLOUR1 => vat_at(a >> 17, a >> 18, 0),
            attributes::TEXTURE0 => vat_at(a >> 21, a >> 22, a >> 25),
            attributes::TEXTURE1 => vat_at(b >> 0, b >> 1, b >> 4),
            attributes::TEXTURE2 => vat_at(b >> 9, b >> 10, b >> 13),
            attributes::TEXTURE3 => vat_at(b >> 18, b >> 19, b >> 22),
            attributes::TEXTURE4 => vat_at(b >> 27, b >> 28, c >> 0),
            attributes::TEXTURE5 => vat_at(c >> 5, c >> 6, c >> 9),
            attributes::TEXTURE6 => vat_at(c >> 14, c >> 15, c >> 18),
            attributes::TEXTURE7 => vat_at(c >> 23, c >> 24, c >> 27),
            _ => vat_at(0, 0, 0),
        }
    }

    // How many indices an indexed attribute has.
    #[tactic(auto, unfolding(crate::specs::Fields::indices_of, crate::specs::Fields::count_of, crate::specs::Fields::bits_at, crate::specs::Fields::counts))]
    fn indices(self, k: usize) -> u32
        ensures { result ≡ indices_of self k }
    {
        if k == NORMAL {
            normal_indices(self.vat0)
        } else {
            1
        }
    }
}

// What the descriptor says of attribute k.
#[tactic(auto, unfolding(crate::specs::Fields::fraction_of, crate::specs::Fields::bits_at))]
pub fn read_field(d: Descriptor, k: usize) -> Field
    ensures { result ≡ field_of d k }
{
    let vat = d.vat(k);
    Field {
        mode: d.mode(k),
        count: vat.count,
        format: vat.format,
        fraction: fraction_bits(k, vat.format, (d.vat0 >> 30) % 2, vat.shift),
        indices: d.indices(k),
    }
}

pub fn is_colour(k: usize) -> bool
    ensures { result ≡ is_colour k }
{
    matches!(k, COLOUR0 | COLOUR1)
}

// The bytes of a colour, by its format alone.
pub fn colour_width(format: u32) -> u32
    ensures { result ≡ colour_width format }
{
    match format {
        0 | 3 => 2,
        1 | 4 => 3,
        _ => 4,
    }
}

// The components of a position, a normal or a texture, by its count bit.
pub fn components(k: usize, count: u32) -> u32
    ensures { result ≡ components_of k count }
{
    match k {
        POSITION => 2 + count % 2,
        NORMAL => 3 + 6 * (count % 2),
        _ => 1 + count % 2,
    }
}
