// The loop: units of every class until one is not taken.
ghost use Rattle.std.specs.Prelude.{◌≡◌, ◌<◌, ◌≤◌, length};
ghost use Rattle.walk.specs.Flat.{core_of};
ghost use Rattle.walk.specs.Walk.{TakesMany};
ghost use Rattle.walk.specs.Moves.{Moves, shut};
ghost use Rattle.bulk.specs.Size.{size_told};
ghost use Rattle.bulk.specs.Inner.{MovesAny, Known, VertexSize};

use crate::{Many, draws, loads};
use command::Draw;
use plain::Passed;

// The units of one class that the bytes go on with.
// A match: each class changes other parts of what is lent, which no table of functions could take alike.
fn take_class(
    bytes: &[u8],
    at: usize,
    cp: &mut [u32; 60],
    bp: &mut [u32],
    xf: &mut [u32],
    buffer: &mut [u8],
    sizes: &mut [Option<u8>; 8],
    most: u32,
) -> Many
    requires { (at < length bytes.now) × ((1 ≤ most) × Known cp.old sizes.old) }
    ensures { MovesAny bytes.now at (shut cp.old bp.old xf.old buffer.old)
        most result.units result.at (core_of cp.new bp.new result.draw xf.new buffer.new)
        sizes.new × VertexSize cp.new result.draw result.size }
{
    let op = bytes[at];
    match op {
        0x61 => Many::from(loading::take_bp(bytes, at, bp, most)),
        0x00 => Many::from(plain::take_zeros(bytes, at, most)),
        0x08 => Many::from(loads::take_cp(bytes, at, cp, sizes, most)),
        0x10 => Many::from(loading::take_xf(bytes, at, xf, most)),
        0x48 | 0x44 => Many::from(plain::take_fixed(bytes, at, 1)),
        0x20 | 0x28 | 0x30 | 0x38 => Many::from(plain::take_fixed(bytes, at, 5)),
        0x40 => Many::from(plain::take_fixed(bytes, at, 9)),
        0x80..=0xBF => draws::take_draw(bytes, at, op, cp, sizes, buffer, most),
        _ => Many::from(Passed { units: 0, at }),
    }
}

// Units from a place on, where no draw is open, until a draw is left open.
// A let-else and no test: past it a proof knows that no draw is open.
fn take_shut(
    bytes: &[u8],
    from: usize,
    cp: &mut [u32; 60],
    bp: &mut [u32],
    xf: &mut [u32],
    buffer: &mut [u8],
    sizes: &mut [Option<u8>; 8],
    limit: u32,
) -> Many
    requires { (from ≤ length bytes.now) × Known cp.old sizes.old }
    ensures { Moves bytes.now from (shut cp.old bp.old xf.old buffer.old)
        limit result.units result.at (core_of cp.new bp.new result.draw xf.new buffer.new)
        × (result.size ≡ size_told cp.new result.draw) }
{
    let mut at = from;
    let mut units: u32 = 0;
    // A `while`: a turn takes units of a class, as many as there are, and the sum of them is counted.
    while units < limit {
        if bytes.len() <= at {
            return Many::from(Passed { units, at });
        }
        let many = take_class(bytes, at, cp, bp, xf, buffer, sizes, limit - units);
        at = many.at;
        units += many.units;
        let Draw::Closed = many.draw else {
            return Many { units, ..many };
        };
        if many.units == 0 {
            return Many::from(Passed { units, at });
        }
    }
    Many::from(Passed { units, at })
}

// Units off the front of the bytes, at most so many: it may stop before any of them.
pub fn take_straight(
    bytes: &[u8],
    cp: &mut [u32; 60],
    bp: &mut [u32],
    xf: &mut [u32],
    buffer: &mut [u8],
    draw: Draw,
    limit: u32,
) -> Many
    ensures { TakesMany bytes.now (core_of cp.old bp.old draw xf.old
        buffer.old)
        limit result.units result.at (core_of cp.new bp.new result.draw xf.new buffer.new)
        × (result.size ≡ size_told cp.new result.draw) }
{
    let mut sizes = [None; 8];
    let first = draws::take_open(bytes, cp, &mut sizes, draw, buffer, limit);
    let Draw::Closed = first.draw else {
        return first;
    };
    let next = take_shut(
        bytes,
        first.at,
        cp,
        bp,
        xf,
        buffer,
        &mut sizes,
        limit - first.units,
    );
    Many {
        units: first.units + next.units,
        ..next
    }
}
