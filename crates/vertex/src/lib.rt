// One attribute of a vertex: what document 01's "Vertex layout" says that it decodes to, and the patterns of its f32 components.
#![tactic(auto)]

mod raw;

ghost use Rattle.std.specs.Prelude.{◌≡◌, ◌<◌, ◌≤◌};
ghost use Rattle.fields.specs.Fields.{field_of};
ghost use Rattle.vertex.specs.Attributes.{component_at, triple_at, position_at, component_list, direct_list, index_list, attribute_list};
ghost use Rattle.vertex.specs.Answers.{told, located, location_of, Decodes, RawIs};

use fields::{Descriptor, Field, Mode, attributes};
use refusal::Reason;

// Three single-precision components.
#[derive(Clone, Copy)]
pub struct Triple {
    pub x: f32,
    pub y: f32,
    pub z: f32,
}

// What an attribute decodes to.
#[derive(Clone, Copy)]
pub enum Attribute {
    Absent,
    Matrix(u32),
    Index(u32),
    Indices(u32, u32, u32),
    Colour(u32),
    Position(Triple),
    Texture(f32, f32),
    Normal(Triple),
    // A normal of nine components.
    Frame(Triple, Triple, Triple),
}

// How many f32 components an attribute has, and their patterns as they stand, zeros after.
// Nine words and a count, not a slice: there is no heap, and the zeros are told too (`RawIs`).
#[derive(Clone, Copy, Debug, PartialEq, Eq)]
pub struct RawWords {
    pub count: u32,
    pub words: [u32; 9],
}

// Components in a vertex: where the first of them starts, their format and their fraction bits.
#[derive(Clone, Copy)]
struct Components<'a> {
    vertex: &'a [u8],
    at: u8,
    format: u32,
    fraction: u32,
}

impl Components<'_> {
    fn component(&self, i: u32) -> f32
        requires { i < 9 }
        ensures { result ≡ component_at self.now.vertex.now self.now.at self.now.format self.now.fraction i }
    {
        let w = component::width(self.format);
        let raw = octets::read(self.vertex, u32::from(self.at) + i * w, w);
        component::decode_component(self.format, raw, self.fraction)
    }

    // Three components from the one of a number on.
    fn triple(&self, first: u32) -> Triple
        requires { first ≤ 6 }
        ensures { result ≡ triple_at self.now.vertex.now self.now.at self.now.format self.now.fraction first }
    {
        Triple {
            x: self.component(first),
            y: self.component(first + 1),
            z: self.component(first + 2),
        }
    }

    // A position of two or three components, the absent third +0.
    fn position(&self, count: u32) -> Triple
        ensures { result ≡ position_at self.now.vertex.now self.now.at count self.now.format self.now.fraction }
    {
        let x = self.component(0);
        let y = self.component(1);
        if count % 2 == 0 {
            return Triple { x, y, z: 0.0 };
        }
        let z = self.component(2);
        Triple { x, y, z }
    }

    // A normal of three components, or of nine.
    fn normal(&self, count: u32) -> Attribute
        ensures { told result ≡ component_list self.now.vertex.now self.now.at 10 count self.now.format self.now.fraction }
    {
        let u = self.triple(0);
        if count % 2 == 0 {
            return Attribute::Normal(u);
        }
        let v = self.triple(3);
        let w = self.triple(6);
        Attribute::Frame(u, v, w)
    }

    // A texture of one or two components, the absent second +0.
    fn texture(&self, count: u32) -> Attribute
        ensures { told result ≡ component_list self.now.vertex.now self.now.at 13 count self.now.format self.now.fraction }
    {
        let x = self.component(0);
        if count % 2 == 0 {
            return Attribute::Texture(x, 0.0);
        }
        let y = self.component(1);
        Attribute::Texture(x, y)
    }
}

// What stands in the vertex itself.
fn read_direct(vertex: &[u8], at: u8, k: usize, field: Field) -> Attribute
    ensures { told result ≡ direct_list vertex.now at k field.count field.format field.fraction }
{
    let Field {
        count,
        format,
        fraction,
        ..
    } = field;
    if fields::is_colour(k) {
        return Attribute::Colour(octets::read(vertex, u32::from(at), fields::colour_width(format)));
    }
    let components = Components {
        vertex,
        at,
        format,
        fraction,
    };
    match k {
        attributes::POSITION => Attribute::Position(components.position(count)),
        attributes::NORMAL => components.normal(count),
        _ => components.texture(count),
    }
}

// One index of n bytes, or three.
fn read_indices(vertex: &[u8], at: u8, times: u32, n: u32) -> Attribute
    requires { n ≤ 2 }
    ensures { told result ≡ index_list vertex.now at times n }
{
    let at = u32::from(at);
    let x = octets::read(vertex, at, n);
    if times != 3 {
        return Attribute::Index(x);
    }
    let y = octets::read(vertex, at + n, n);
    let z = octets::read(vertex, at + 2 * n, n);
    Attribute::Indices(x, y, z)
}

// What the descriptor says of attribute k; positions, which are asked for most, have a way of their own, with constant places.
// A descriptor and a number go side by side, as the public functions have them: nothing is promised of the two together.
fn field_of(descriptor: Descriptor, k: usize) -> Field
    ensures { result ≡ field_of descriptor k }
{
    if k == attributes::POSITION {
        return fields::read_field(descriptor, attributes::POSITION);
    }
    fields::read_field(descriptor, k)
}

// Attribute k, from its place in the vertex on.
fn decode_at(descriptor: Descriptor, k: usize, vertex: &[u8], at: u8) -> Attribute
    ensures { told result ≡ attribute_list descriptor k vertex.now at }
{
    let field = field_of(descriptor, k);
    match field.mode {
        Mode::Absent => Attribute::Absent,
        _ if k < attributes::POSITION => Attribute::Matrix(octets::read(vertex, u32::from(at), 1)),
        Mode::Direct => read_direct(vertex, at, k, field),
        index => read_indices(vertex, at, field.indices, index.index_width()),
    }
}

// Where attribute k starts, or the reason why it is refused: 9, 10, then 19.
#[tactic(auto, using(crate::proofs::Refusals::layout_refused))]
fn locate(descriptor: Descriptor, k: usize, vertex: &[u8]) -> Result<u8, Reason>
    ensures { located result ≡ location_of descriptor k vertex.now }
{
    let spot = layout::find(descriptor, k);
    let length = spot.length?;
    if k < attributes::COUNT && vertex.len() == length as usize {
        Ok(spot.offset as u8)
    } else {
        Err(Reason::NotOfLayout)
    }
}

// Attribute k of a vertex, or the reason why it is refused: 9, 10, then 19.
pub fn decode(descriptor: Descriptor, k: usize, vertex: &[u8]) -> Result<Attribute, Reason>
    ensures { Decodes descriptor k vertex.now result }
{
    let at = locate(descriptor, k, vertex)?;
    Ok(decode_at(descriptor, k, vertex, at))
}

// The patterns of attribute k's f32 components, or the reason why it is refused: 9, 10, then 19.
pub fn raw_words(descriptor: Descriptor, k: usize, vertex: &[u8]) -> Result<RawWords, Reason>
    ensures { RawIs descriptor k vertex.now result }
{
    let at = locate(descriptor, k, vertex)?;
    let count = raw::count(descriptor, k);
    Ok(RawWords {
        count,
        words: raw::gather(vertex, at, count),
    })
}
