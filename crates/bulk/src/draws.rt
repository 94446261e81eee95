// Draws: a head with its vertices, and the vertices of a draw that is open. Only the last vertex is copied, because each overwrites the
// one before it.
ghost use Rattle.std.specs.Prelude.{◌≡◌, ◌+◌, ◌-◌, ◌*◌, ◌<◌, ◌≤◌, length, get_or};
ghost use Rattle.command.specs.Look.{largest_vertex};
ghost use Rattle.bulk.specs.Inner.{Known, Sized, Fits, copied_at, Leaves, VertexSize, MovesVertices, MovesOpen, MovesDraw};

use crate::Many;
use command::Draw;
use plain::Passed;

// The bytes of a vertex of a format, kept from then on; 0 where its layout is refused.
fn size_of(cp: &[u32; 60], sizes: &mut [Option<u8>; 8], format: u8) -> u32
    requires { (format < 8) × Known cp.now sizes.old }
    ensures { Sized cp.now format result sizes.new }
{
    let f = format as usize;
    if let Some(known) = sizes[f] {
        return u32::from(known);
    }
    let size = looking::vertex_bytes(cp, format);
    sizes[f] = Some(size as u8);
    size
}

// Copies the last of n vertices from a place on.
// Bytes and a place, here and below: the place that is answered is one of the whole list. That a size is not 0 its caller has just tested.
fn copy_last(bytes: &[u8], from: usize, n: usize, size: usize, buffer: &mut [u8])
    requires { (1 ≤ n) × (from + n * size ≤ length bytes.now) }
    ensures { buffer.new ≡ copied_at bytes.now (from + n * size - size) size buffer.old }
{
    let end = from + n * size;
    let start = end - size;
    effect::copy_vertex(buffer, &bytes[start..end]);
}

// A number of vertices of so many bytes that are whole in the room, left and allowed. All that are left is tried first, without a division.
fn whole(room: usize, size: usize, left: usize, most: usize) -> usize
    requires { (1 ≤ size) × ((size ≤ largest_vertex) × (left < 65536)) }
    ensures { Fits room size left most result }
{
    if left <= most && left * size <= room {
        return left;
    }
    (room / size).min(left.min(most))
}

// The whole vertices of a draw from a place on, at most so many: each has so many bytes.
fn take_vertices(
    bytes: &[u8],
    from: usize,
    primitive: u8,
    format: u8,
    left: u16,
    size: usize,
    buffer: &mut [u8],
    most: u32,
) -> Many
    requires { (from ≤ length bytes.now) × ((1 ≤ size) × (size ≤ largest_vertex)) }
    ensures { MovesVertices bytes.now from primitive format left size buffer.old most result.units result.at
        result.draw buffer.new × Leaves primitive format size result.draw result.size }
{
    let n = whole(bytes.len() - from, size, left as usize, most as usize);
    let draw = effect::draw_of(primitive, format, left - n as u16);
    if n == 0 {
        return Many {
            units: 0,
            at: from,
            draw,
            size: size as u32,
        };
    }
    copy_last(bytes, from, n, size, buffer);
    Many {
        units: n as u32,
        at: from + n * size,
        draw,
        size: size as u32,
    }
}

// 80 to BF: a head, with as many of its vertices as are whole and allowed.
pub(crate) fn take_draw(
    bytes: &[u8],
    at: usize,
    op: u8,
    cp: &[u32; 60],
    sizes: &mut [Option<u8>; 8],
    buffer: &mut [u8],
    most: u32,
) -> Many
    requires { (at ≤ length bytes.now) × ((get_or bytes.now at 0 ≡ op)
        × ((128 ≤ op) × ((op < 192) × ((1 ≤ most) × Known cp.now sizes.old)))) }
    ensures { MovesDraw bytes.now at cp.now buffer.old most result.units result.at result.draw
        sizes.new buffer.new × VertexSize cp.now result.draw result.size }
{
    let none = Many::from(Passed { units: 0, at });
    if bytes.len() - at < 3 {
        return none;
    }
    let format = op % 8;
    let size = size_of(cp, sizes, format) as usize;
    if size == 0 {
        return none;
    }
    let count = octets::half(bytes[at + 1], bytes[at + 2]);
    let some = take_vertices(
        bytes,
        at + 3,
        op / 8 % 8,
        format,
        count,
        size,
        buffer,
        most - 1,
    );
    Many {
        units: some.units + 1,
        ..some
    }
}

// The whole vertices of an open draw, at most so many; the size of one is kept.
pub(crate) fn take_open(
    bytes: &[u8],
    cp: &[u32; 60],
    sizes: &mut [Option<u8>; 8],
    draw: Draw,
    buffer: &mut [u8],
    most: u32,
) -> Many
    requires { Known cp.now sizes.old }
    ensures { MovesOpen bytes.now cp.now draw buffer.old most result.units result.at result.draw
        sizes.new buffer.new × VertexSize cp.now result.draw result.size }
{
    let none = Many {
        units: 0,
        at: 0,
        draw,
        size: 0,
    };
    let Draw::Open {
        primitive,
        format,
        left,
    } = draw
    else {
        return none;
    };
    if left == 0 {
        return none;
    }
    let size = size_of(cp, sizes, format % 8) as usize;
    if size == 0 {
        return none;
    }
    take_vertices(bytes, 0, primitive, format, left, size, buffer, most)
}
