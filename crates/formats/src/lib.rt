// A vertex format of five words: its layout, and the attributes of a vertex, on words.
// As C has it: an answer is a number, and what is told goes to arrays that are lent.
#![tactic(auto)]

ghost use Rattle.encoding.specs.Named.{format_named};
ghost use Rattle.formats.specs.Formats.{LaysOut, TellsAttribute, TellsAll, KeepsBits};

// The layout of a vertex: each attribute's bytes, the sum of those before it, and the length.
pub fn lay_out(
    format: &[u32; 5],
    sizes: &mut [u8; 21],
    offsets: &mut [u8; 21],
    length: &mut u32,
) -> u32
    ensures { LaysOut (format_named format.now) sizes.old offsets.old length.old
        result sizes.new offsets.new length.new }
{
    let laid = match layout::lay_out(encoding::descriptor(format)) {
        Ok(laid) => laid,
        Err(reason) => return u32::from(reason),
    };
    // Through variables: a field that is an array is not stored straight.
    let bytes = laid.sizes;
    let before = laid.offsets;
    *sizes = bytes;
    *offsets = before;
    *length = laid.length;
    0
}

// One attribute of a vertex: its kind and nine values, zeros where unused.
pub fn decode(format: &[u32; 5], attribute: u32, vertex: &[u8], values: &mut [u32; 10]) -> u32
    ensures { TellsAttribute (format_named format.now) attribute vertex.now values.old
        result values.new }
{
    encoding::answer_number(whole::decode_one(
        encoding::descriptor(format),
        attribute as usize,
        vertex,
        values,
    ))
}

// All attributes of a vertex: ten words each, the kind and nine values, zeros where unused.
pub fn decode_all(format: &[u32; 5], vertex: &[u8], values: &mut [u32; 210]) -> u32
    ensures { TellsAll (format_named format.now) vertex.now values.old result values.new }
{
    encoding::answer_number(whole::decode_all(encoding::descriptor(format), vertex, values))
}

// The f32 components of an attribute as they stand: how many there are, and nine words, zeros where unused.
pub fn raw_words(format: &[u32; 5], attribute: u32, vertex: &[u8], values: &mut [u32; 10]) -> u32
    ensures { KeepsBits (format_named format.now) attribute vertex.now values.old
        result values.new }
{
    match vertex::raw_words(encoding::descriptor(format), attribute as usize, vertex) {
        Ok(raw) => {
            *values = encoding::raw_list(raw.count, raw.words);
            0
        }
        Err(reason) => u32::from(reason),
    }
}
