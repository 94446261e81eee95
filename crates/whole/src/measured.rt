// A vertex that has the length of its layout: no attribute is read past its end.
// Words as C gets them, the kind a number in front: `vertex` makes floats of the same bytes and tests each of them.
ghost use Rattle.std.specs.Prelude.{◌≡◌, ◌+◌, ◌*◌, ◌<◌, ◌≤◌, length};
ghost use Rattle.fields.specs.Fields.{field_of};
ghost use Rattle.layout.specs.Sizes.{direct_of, size_of, offset_of};
ghost use Rattle.vertex.specs.Attributes.{direct_list, index_list, attribute_list};
ghost use Rattle.encoding.specs.Told.{padded};
ghost use Rattle.whole.specs.Whole.{whole_to};
ghost use Rattle.whole.specs.Inner.{ten_at, matrix_list, few_kind, Placed, ToldAt, TellsFrom};

use crate::components::{Components, number_in};
use fields::attributes::{
    COLOUR0, COLOUR1, NORMAL, POSITION, TEXTURE0, TEXTURE1, TEXTURE2, TEXTURE3, TEXTURE4, TEXTURE5,
    TEXTURE6, TEXTURE7,
};
use fields::{Descriptor, Field, Mode, read_field};

// Puts ten words from a place on.
fn put(values: &mut [u32], at: usize, words: [u32; 10])
    requires { at + 10 ≤ length values.old }
    ensures { values.new ≡ ten_at at words values.old }
{
    values[at..at + 10].copy_from_slice(&words);
}

// The kind of a position, of a normal of three components, or of a texture.
fn kind(k: usize) -> u32
    ensures { result ≡ few_kind k }
{
    match k {
        POSITION => 5,
        NORMAL => 7,
        _ => 6,
    }
}

// Puts the words of a direct attribute from a slot on.
fn put_direct(k: usize, field: Field, vertex: &[u8], at: usize, slot: usize, values: &mut [u32])
    requires { (at + direct_of k field.count field.format ≤ length vertex.now) × (slot + 10 ≤ length values.old) }
    ensures { values.new
        ≡ ten_at slot (padded 10 (direct_list vertex.now at k field.count field.format field.fraction)) values.old }
{
    let format = field.format;
    let fraction = field.fraction;
    if fields::is_colour(k) {
        let n = number_in(vertex, at, fields::colour_width(format));
        put(values, slot, [4, n, 0, 0, 0, 0, 0, 0, 0, 0]);
        return;
    }
    let components = Components {
        vertex,
        at,
        format,
        fraction,
    };
    let n = fields::components(k, field.count);
    if n == 9 {
        put(values, slot, components.frame());
        return;
    }
    let [x, y, z] = components.up_to_three(n);
    put(values, slot, [kind(k), x, y, z, 0, 0, 0, 0, 0, 0]);
}

// The words of one index of n bytes, or of three.
fn index_words(vertex: &[u8], at: usize, times: u32, n: u32) -> [u32; 10]
    requires { (1 ≤ n) × (n ≤ 2) × (1 ≤ times) × (at + times * n ≤ length vertex.now) }
    ensures { result ≡ padded 10 (index_list vertex.now at times n) }
{
    let x = number_in(vertex, at, n);
    if times != 3 {
        return [2, x, 0, 0, 0, 0, 0, 0, 0, 0];
    }
    let step = n as usize;
    let y = number_in(vertex, at + step, n);
    let z = number_in(vertex, at + 2 * step, n);
    [3, x, y, z, 0, 0, 0, 0, 0, 0]
}

// The words of a matrix, which is one byte where its bit is set.
fn matrix_words(bit: u32, vertex: &[u8], at: u32) -> [u32; 10]
    ensures { result ≡ padded 10 (matrix_list bit vertex.now at) }
{
    if bit == 0 {
        return [0; 10];
    }
    [1, octets::read(vertex, at, 1), 0, 0, 0, 0, 0, 0, 0, 0]
}

// The bytes of a direct attribute.
fn direct_bytes(k: usize, count: u32, format: u32) -> u32
    ensures { result ≡ direct_of k count format }
{
    if fields::is_colour(k) {
        return fields::colour_width(format);
    }
    fields::components(k, count) * component::width(format)
}

// A vertex and its descriptor, whose layout has just as many bytes.
#[derive(Clone, Copy)]
pub struct Vertex<'a> {
    pub descriptor: Descriptor,
    pub vertex: &'a [u8],
    ghost whole: { length vertex.now ≡ offset_of descriptor 21 },
}

impl Vertex<'_> {
    // The bytes of attribute k, which is no matrix.
    fn bytes_of(&self, field: Field, k: usize) -> u32
        requires { (field ≡ field_of self.now.descriptor k) × (9 ≤ k) }
        ensures { result ≡ size_of self.now.descriptor k }
    {
        match field.mode {
            Mode::Absent => 0,
            Mode::Direct => direct_bytes(k, field.count, field.format),
            index => field.indices * index.index_width(),
        }
    }

    // Puts the words of attribute k, which is no matrix and starts at a place, from a slot on.
    fn put_at(&self, field: Field, k: usize, at: u32, slot: usize, values: &mut [u32])
        requires { Placed self.now.descriptor field k at × (slot + 10 ≤ length values.old) }
        ensures { values.new ≡ ten_at slot
            (padded 10 (attribute_list self.now.descriptor k self.now.vertex.now (offset_of self.now.descriptor k))) values.old }
    {
        match field.mode {
            Mode::Absent => put(values, slot, [0; 10]),
            Mode::Direct => put_direct(k, field, self.vertex, at as usize, slot, values),
            index => {
                let words = index_words(
                    self.vertex,
                    at as usize,
                    field.indices,
                    index.index_width(),
                );
                put(values, slot, words);
            }
        }
    }

    // Tells attribute k alone, which starts at a place; positions, which are asked for most, have a way of their own, with constant places.
    pub fn tell_alone(&self, k: usize, at: u32, values: &mut [u32; 10])
        requires { (k < 21) × (at ≡ offset_of self.now.descriptor k) }
        ensures { values.new
            ≡ padded 10 (attribute_list self.now.descriptor k self.now.vertex.now (offset_of self.now.descriptor k)) }
    {
        let d = self.descriptor;
        if k == POSITION {
            self.put_at(read_field(d, POSITION), POSITION, at, 0, values);
            return;
        }
        if k < POSITION {
            put(values, 0, matrix_words((d.vcd0 >> k) % 2, self.vertex, at));
            return;
        }
        self.put_at(read_field(d, k), k, at, 0, values);
    }

    // Tells attribute k, which is no matrix, at its place among all; the next starts at the place returned.
    fn tell_one(&self, field: Field, k: usize, at: u32, values: &mut [u32; 210]) -> u32
        requires { Placed self.now.descriptor field k at }
        ensures { ToldAt self.now.descriptor k self.now.vertex.now (10 * k) values.old result values.new }
    {
        self.put_at(field, k, at, 10 * k, values);
        at + self.bytes_of(field, k)
    }

    // Tells the nine matrices.
    fn tell_matrices(&self, values: &mut [u32; 210]) -> u32
        ensures { TellsFrom self.now.descriptor self.now.vertex.now 0 9 values.old result values.new }
    {
        let vcd = self.descriptor.vcd0;
        let mut at = 0;
        for k in 0..POSITION {
            let bit = (vcd >> k) % 2;
            put(values, 10 * k, matrix_words(bit, self.vertex, at));
            at += bit;
        }
        at
    }

    // Tells all attributes that are no matrices. One after the other: a loop would read each field at a place that is not constant, and
    // takes half as many instructions again.
    fn tell_others(&self, at: u32, values: &mut [u32; 210]) -> u32
        requires { at ≡ offset_of self.now.descriptor 9 }
        ensures { TellsFrom self.now.descriptor self.now.vertex.now 9 21 values.old result values.new }
    {
        let d = self.descriptor;
        let at = self.tell_one(read_field(d, POSITION), POSITION, at, values);
        let at = self.tell_one(read_field(d, NORMAL), NORMAL, at, values);
        let at = self.tell_one(read_field(d, COLOUR0), COLOUR0, at, values);
        let at = self.tell_one(read_field(d, COLOUR1), COLOUR1, at, values);
        let at = self.tell_one(read_field(d, TEXTURE0), TEXTURE0, at, values);
        let at = self.tell_one(read_field(d, TEXTURE1), TEXTURE1, at, values);
        let at = self.tell_one(read_field(d, TEXTURE2), TEXTURE2, at, values);
        let at = self.tell_one(read_field(d, TEXTURE3), TEXTURE3, at, values);
        let at = self.tell_one(read_field(d, TEXTURE4), TEXTURE4, at, values);
        let at = self.tell_one(read_field(d, TEXTURE5), TEXTURE5, at, values);
        let at = self.tell_one(read_field(d, TEXTURE6), TEXTURE6, at, values);
        self.tell_one(read_field(d, TEXTURE7), TEXTURE7, at, values)
    }

    // Tells all attributes.
    pub fn tell(&self, values: &mut [u32; 210])
        ensures { values.new ≡ whole_to self.now.descriptor self.now.vertex.now 21 }
    {
        let at = self.tell_matrices(values);
        self.tell_others(at, values);
    }
}
