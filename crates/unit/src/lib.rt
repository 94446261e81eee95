// One unit of the stream at a cursor, looked at or taken. It tests none of 1 to 5.
#![tactic(auto)]

ghost use Rattle.std.specs.Prelude.{◌≡◌, ◌≤◌};
ghost use Rattle.command.specs.Command.{numbers_of};
ghost use Rattle.command.specs.Look.{largest_vertex};
ghost use Rattle.effect.specs.Effect.{Applied};
ghost use Rattle.unit.specs.Answers.{meaning};
ghost use Rattle.unit.specs.Cursor.{seen, bytes_at, Takes};

use command::{Command, Draw, LARGEST_VERTEX, StepAnswer};
use cursor::Cursor;

// What one unit leaves of the cursor and the draw, and its answer.
// Told beside every answer, a refusal too (`Takes`). `TakenUnit` is the same of a fifo: one struct could call neither by its name.
#[derive(Clone, Copy)]
pub struct Moved {
    pub cursor: Cursor,
    pub draw: Draw,
    pub answer: StepAnswer,
}

// What the cursor begins with: a unit, or why there is none. It tests none of 1 to 5.
#[tactic(auto, unfolding(crate::specs::Cursor::seen))]
pub fn look_at(cursor: Cursor, ring: &[u8], cp: &[u32; 60], draw: Draw) -> StepAnswer
    ensures { meaning result ≡ seen cursor ring.now cp.now draw }
{
    let bytes = reading::peek(cursor, ring);
    looking::look(bytes, cursor.left, cp, draw)
}

// The effect of a command whose unit is the cursor's first n bytes. Where they lie straight they are lent as a part of the ring, and else
// gathered.
// cp, bp, xf and buffer go one by one: in a struct of borrows each would ask a clause on its ghost name of all that pass it on.
fn execute(
    command: Command,
    cursor: Cursor,
    ring: &[u8],
    n: u32,
    cp: &mut [u32; 60],
    bp: &mut [u32],
    xf: &mut [u32],
    buffer: &mut [u8],
)
    requires { n ≤ largest_vertex }
    ensures { Applied (numbers_of command) (bytes_at cursor ring.now n)
        cp.old bp.old xf.old buffer.old
        cp.new bp.new xf.new buffer.new }
{
    let at = cursor.at as usize;
    let end = at + n as usize;
    if cursor::straight(cursor, n) & (end <= ring.len()) {
        execution::apply(command, &ring[at..end], cp, bp, xf, buffer);
        return;
    }
    let mut bytes = [0u8; LARGEST_VERTEX];
    reading::copy(cursor, ring, &mut bytes, n);
    execution::apply(command, &bytes[..n as usize], cp, bp, xf, buffer);
}

// Takes the unit that the cursor begins with, or answers why there is none. It looks by the same two calls as
// `look_at`, in place.
pub fn take_at(
    cursor: Cursor,
    ring: &[u8],
    cp: &mut [u32; 60],
    bp: &mut [u32],
    draw: Draw,
    xf: &mut [u32],
    buffer: &mut [u8],
) -> Moved
    ensures { Takes (seen cursor ring.now cp.old draw)
        cursor ring.now cp.old bp.old draw xf.old buffer.old
        result.answer result.cursor result.draw cp.new bp.new xf.new buffer.new }
{
    let bytes = reading::peek(cursor, ring);
    let answer = looking::look(bytes, cursor.left, cp, draw);
    let StepAnswer::Done {
        command,
        length,
        ..
    } = answer
    else {
        return Moved {
            cursor,
            draw,
            answer,
        };
    };
    execute(command, cursor, ring, length, cp, bp, xf, buffer);
    Moved {
        cursor: cursor::skip(cursor, length),
        draw: effect::next_draw(command, draw),
        answer,
    }
}
