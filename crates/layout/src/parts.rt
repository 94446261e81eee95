// The bytes of the attributes that are no matrices: each field is read at its own place, and absent groups need no look.
ghost use Rattle.std.specs.Prelude.{◌≡◌, ◌+◌, ◌*◌, ◌<◌};
ghost use Rattle.layout.specs.Sizes.{any_unknown};
ghost use Rattle.layout.specs.Inner.{half_byte, PartBy, WeighedBy, ForeOf, TexturesOf};

use fields::{Descriptor, colour_width, normal_indices};

// What one attribute adds: its bytes, and whether it is present in a format that is none. Both, since `find` tells the place of an
// attribute where the layout is refused too.
#[derive(Clone, Copy)]
pub struct Part {
    pub bytes: u32,
    pub unknown: bool,
}

// The bytes of the attributes in group 0 of the VAT, and whether one of them is present in a format that is none.
// `Fore` and `Textures` have both too: `find` tells a place where the layout is refused.
// Fields and no arrays: sizes that were just written one by one and are then read by wide loads are waited for.
#[derive(Clone, Copy)]
pub struct Fore {
    pub position: u32,
    pub normal: u32,
    pub colour0: u32,
    pub colour1: u32,
    pub texture0: u32,
    pub unknown: bool,
}

// The bytes of the other textures, and whether an attribute is present in a format that is none.
#[derive(Clone, Copy)]
pub struct Textures {
    pub texture1: u32,
    pub texture2: u32,
    pub texture3: u32,
    pub texture4: u32,
    pub texture5: u32,
    pub texture6: u32,
    pub texture7: u32,
    pub unknown: bool,
}

// The entry of a table of sixteen half bytes, by a format and a count bit.
// Mode, count and format are bits just read and used once: a struct that keeps their bounds would be built at all twelve calls.
fn entry(table: u64, count: u32, format: u32) -> u32
    requires { (count < 2) × (format < 8) }
    ensures { result ≡ half_byte table (2 * format + count) }
{
    ((table >> (4 * (2 * format + count))) % 16) as u32
}

// The bytes of an attribute by its mode, and whether it is present in no format. The mode stays a number of two bits: a match on a `Mode`
// becomes a jump through a table for each attribute, and is slower.
fn by_mode(mode: u32, direct: u32, indices: u32, none: bool) -> Part
    requires { (mode < 4) × (indices < 4) }
    ensures { PartBy mode direct indices none result }
{
    if mode == 0 {
        return Part {
            bytes: 0,
            unknown: false,
        };
    }
    if mode == 1 {
        return Part {
            bytes: direct,
            unknown: none,
        };
    }
    Part {
        bytes: indices * (mode - 1),
        unknown: none,
    }
}

// A position of two or three components.
// One function for each kind: their tables differ, a normal has three of each and indices, and a colour has no count.
#[tactic(auto, using(crate::proofs::Packed::position_entry))]
fn position(mode: u32, count: u32, format: u32) -> Part
    requires { (mode < 4) × (count < 2) × (format < 8) }
    ensures { WeighedBy 9 mode count format 1 result }
{
    by_mode(
        mode,
        entry(0xC8C8_C8C8_6464_3232, count, format),
        1,
        5 <= format,
    )
}

// A normal of three or nine components, or of one or three indices.
#[tactic(auto, using(crate::proofs::Packed::normal_entry))]
fn normal(mode: u32, count: u32, format: u32, indices: u32) -> Part
    requires { (mode < 4) × (count < 2) × (format < 8) × (indices < 4) }
    ensures { WeighedBy 10 mode count format indices result }
{
    by_mode(
        mode,
        3 * entry(0xC4C4_C4C4_6262_3131, count, format),
        indices,
        5 <= format,
    )
}

// A colour, whatever its count bit.
#[tactic(auto, unfolding(crate::specs::Sizes::direct_of))]
fn colour(mode: u32, format: u32) -> Part
    requires { mode < 4 }
    ensures { WeighedBy 11 mode 0 format 1 result }
{
    by_mode(mode, colour_width(format), 1, 6 <= format)
}

// A texture of one or two components.
#[tactic(auto, using(crate::proofs::Packed::texture_entry))]
fn texture(mode: u32, count: u32, format: u32) -> Part
    requires { (mode < 4) × (count < 2) × (format < 8) }
    ensures { WeighedBy 13 mode count format 1 result }
{
    by_mode(
        mode,
        entry(0x8484_8484_4242_2121, count, format),
        1,
        5 <= format,
    )
}

// The attributes in group 0 of the VAT; normal and colours are not looked at where their six bits are clear.
pub fn weigh_fore(d: Descriptor) -> Fore
    ensures { ForeOf d result }
{
    let vcd = d.vcd0;
    let vat = d.vat0;
    let p = position((vcd >> 9) % 4, (vat >> 0) % 2, (vat >> 1) % 8);
    let t = texture((d.vcd1 >> 0) % 4, (vat >> 21) % 2, (vat >> 22) % 8);
    if (vcd >> 11) % 64 == 0 {
        return Fore {
            position: p.bytes,
            normal: 0,
            colour0: 0,
            colour1: 0,
            texture0: t.bytes,
            unknown: p.unknown | t.unknown,
        };
    }
    let indices = normal_indices(vat);
    let n = normal((vcd >> 11) % 4, (vat >> 9) % 2, (vat >> 10) % 8, indices);
    let c = colour((vcd >> 13) % 4, (vat >> 14) % 8);
    let e = colour((vcd >> 15) % 4, (vat >> 18) % 8);
    Fore {
        position: p.bytes,
        normal: n.bytes,
        colour0: c.bytes,
        colour1: e.bytes,
        texture0: t.bytes,
        unknown: p.unknown | n.unknown | c.unknown | e.unknown | t.unknown,
    }
}

// The textures past the first, after attributes of which some may be in no format; they are not looked at where their bits are clear.
// One by one: the fields stand at no one step (0, 9, 18, 27, then 5, 14, 23).
pub fn weigh_textures(d: Descriptor, found: bool) -> Textures
    requires { found ≡ any_unknown d 14 }
    ensures { TexturesOf d result }
{
    let vcd = d.vcd1;
    let vat = d.vat1;
    let rest = d.vat2;
    if (vcd >> 2) % 0x4000 == 0 {
        return Textures {
            texture1: 0,
            texture2: 0,
            texture3: 0,
            texture4: 0,
            texture5: 0,
            texture6: 0,
            texture7: 0,
            unknown: found,
        };
    }
    let b = texture((vcd >> 2) % 4, (vat >> 0) % 2, (vat >> 1) % 8);
    let c = texture((vcd >> 4) % 4, (vat >> 9) % 2, (vat >> 10) % 8);
    let e = texture((vcd >> 6) % 4, (vat >> 18) % 2, (vat >> 19) % 8);
    let f = texture((vcd >> 8) % 4, (vat >> 27) % 2, (vat >> 28) % 8);
    let g = texture((vcd >> 10) % 4, (rest >> 5) % 2, (rest >> 6) % 8);
    let h = texture((vcd >> 12) % 4, (rest >> 14) % 2, (rest >> 15) % 8);
    let i = texture((vcd >> 14) % 4, (rest >> 23) % 2, (rest >> 24) % 8);
    Textures {
        texture1: b.bytes,
        texture2: c.bytes,
        texture3: e.bytes,
        texture4: f.bytes,
        texture5: g.bytes,
        texture6: h.bytes,
        texture7: i.bytes,
        unknown: found
            | b.unknown
            | c.unknown
            | e.unknown
            | f.unknown
            | g.unknown
            | h.unknown
            | i.unknown,
    }
}
