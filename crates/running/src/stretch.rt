// The units that lie straight in the ring from the cursor on, taken in one call.
ghost use Rattle.std.specs.Prelude.{◌≡◌, true};
ghost use Rattle.cursor.specs.Cursor.{straight_by};
ghost use Rattle.running.specs.Stretch.{TakesStretch, SizeKnown};

use command::Draw;
use cursor::Cursor;

// What is left of the cursor and the draw, how many units were taken, and the bytes of a vertex of the draw, 0 where these are not known.
// `size` is that of `bulk::take_straight`, which promises 0 there; its `Many` has a place in a slice where this has a cursor.
#[derive(Clone, Copy)]
pub struct Stretch {
    pub cursor: Cursor,
    pub draw: Draw,
    pub units: u32,
    pub size: u32,
}

// How many bytes lie straight: those that are left, or those up to the ring's end.
#[tactic(auto, unfolding(cursor::specs::Cursor::straight_by))]
fn reach(cursor: Cursor) -> u32
    ensures { straight_by cursor result ≡ true }
{
    cursor.left.min(cursor.size.saturating_sub(cursor.at))
}

// Takes units of the straight stretch, at most so many: it may stop before any of them.
pub(crate) fn take_stretch(
    cursor: Cursor,
    ring: &[u8],
    cp: &mut [u32; 60],
    bp: &mut [u32],
    draw: Draw,
    xf: &mut [u32],
    buffer: &mut [u8],
    most: u32,
) -> Stretch
    ensures { TakesStretch cursor ring.now cp.old bp.old draw xf.old
        buffer.old
        most result.cursor result.draw result.units cp.new bp.new xf.new buffer.new
        × SizeKnown cp.new result.draw result.size }
{
    let n = reach(cursor);
    let at = cursor.at as usize;
    let end = at + n as usize;
    if ring.len() < end {
        return Stretch {
            cursor: cursor::skip(cursor, 0),
            draw,
            units: 0,
            size: 0,
        };
    }
    let many = bulk::take_straight(&ring[at..end], cp, bp, xf, buffer, draw, most);
    Stretch {
        cursor: cursor::skip(cursor, many.at as u32),
        draw: many.draw,
        units: many.units,
        size: many.size,
    }
}
