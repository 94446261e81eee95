// The units of a run, until the limit, waiting or a refusal.
ghost use Rattle.std.specs.Prelude.{◌≡◌, ◌≤◌, length};
ghost use Rattle.command.specs.Look.{largest_vertex};
ghost use Rattle.machine.specs.Gate.{gate_by};
ghost use Rattle.unit.specs.Cursor.{seen, Takes};
ghost use Rattle.unit.specs.Answers.{meaning};
ghost use Rattle.machine.specs.State.{state_of};
ghost use Rattle.running.specs.Stretch.{SizeKnown, TakesVertex};
ghost use Rattle.running.specs.Run.{stop_of, meaning_of_stop, Arrives};

use crate::{Ran, Stop, stretch};
use command::{Command, Draw, LARGEST_VERTEX, StepAnswer};
use cursor::Cursor;
use fifo::Fifo;
use unit::Moved;

// The most units of a run.
pub const RUN_LIMIT: u32 = 1048575;

// Why a run stops at an answer.
// No From of every answer: a unit done stops no run, and the let-else of `take_units` has left that case.
fn stop_for(answer: StepAnswer) -> Stop
    ensures { meaning_of_stop result ≡ stop_of (meaning answer) }
{
    match answer {
        StepAnswer::Done { .. } => Stop::Limit,
        StepAnswer::Waiting(lacking) => Stop::Waiting(lacking),
        StepAnswer::Refused(reason) => Stop::Refused(reason),
    }
}

// Takes a vertex of so many bytes off a cursor, straight or over the ring's end.
fn take_vertex(cursor: Cursor, ring: &[u8], draw: Draw, buffer: &mut [u8], size: u32) -> Moved
    requires { size ≤ largest_vertex }
    ensures { TakesVertex cursor ring.now draw buffer.old size
        result.answer result.cursor result.draw buffer.new }
{
    let mut bytes = [0u8; LARGEST_VERTEX];
    reading::copy(cursor, ring, &mut bytes, size);
    effect::copy_vertex(buffer, &bytes[..size as usize]);
    Moved {
        cursor: cursor::skip(cursor, size),
        draw: effect::next_draw(Command::Vertex, draw),
        answer: StepAnswer::Done {
            command: Command::Vertex,
            memory: 0,
            length: size,
        },
    }
}

// Takes the unit that the cursor begins with, as `take_at` does. `size` is the bytes of a vertex of the open draw, 0 where they are not
// known; where they are, nothing is looked at or measured.
fn take_next(
    cursor: Cursor,
    ring: &[u8],
    cp: &mut [u32; 60],
    bp: &mut [u32],
    draw: Draw,
    xf: &mut [u32],
    buffer: &mut [u8],
    size: u32,
) -> Moved
    requires { SizeKnown cp.old draw size }
    ensures { Takes (seen cursor ring.now cp.old draw)
        cursor ring.now cp.old bp.old draw xf.old buffer.old
        result.answer result.cursor result.draw cp.new bp.new xf.new buffer.new }
{
    if size == 0 {
        return unit::take_at(cursor, ring, cp, bp, draw, xf, buffer);
    }
    let there = cursor.left;
    if size <= there {
        return take_vertex(cursor, ring, draw, buffer, size);
    }
    Moved {
        cursor,
        draw,
        answer: StepAnswer::Waiting(size - there),
    }
}

// Takes units off the queue of a state that has passed 1 to 5:
// "A run stops at its limit, at waiting or at a refusal, the limit tested first".
// Before each unit those that lie straight in the ring are taken in one call.
// A loop, not a `for`: a turn takes all units that lie straight and one more, so no index is counted.
pub(crate) fn take_units(
    fifo: Fifo,
    ring: &[u8],
    cp: &mut [u32; 60],
    bp: &mut [u32],
    first: Draw,
    xf: &mut [u32],
    buffer: &mut [u8],
    limit: u32,
) -> Ran
    requires { gate_by fifo cp.old bp.old first (length ring.now) (length xf.old) (length buffer.old) ≡ 0 }
    ensures { Arrives ring.now limit
        (state_of fifo cp.old bp.old first xf.old buffer.old)
        (meaning_of_stop result.stop) result.fifo cp.new bp.new
        result.draw xf.new buffer.new result.units }
{
    let mut cursor = cursor::open(fifo);
    let mut draw = first;
    let mut units = 0;
    loop {
        let ahead = stretch::take_stretch(cursor, ring, cp, bp, draw, xf, buffer, limit - units);
        cursor = ahead.cursor;
        draw = ahead.draw;
        units += ahead.units;
        if limit <= units {
            return Ran {
                fifo: cursor::close(fifo, cursor),
                draw,
                units,
                stop: Stop::Limit,
            };
        }
        let moved = take_next(cursor, ring, cp, bp, draw, xf, buffer, ahead.size);
        let StepAnswer::Done { .. } = moved.answer else {
            return Ran {
                fifo: cursor::close(fifo, cursor),
                draw,
                units,
                stop: stop_for(moved.answer),
            };
        };
        units += 1;
        cursor = moved.cursor;
        draw = moved.draw;
    }
}
