// The next unit taken: looked at, executed, consumed.
// The gate first, as in a look and a run, each with an answer of its own. All is lent apart: C has BP registers among its words.
ghost use Rattle.machine.specs.State.{state_of};
ghost use Rattle.processor.specs.Step.{Steps};

use command::{Draw, StepAnswer};
use fifo::Fifo;

// What a taking leaves of the fifo and the draw, and its answer.
// Told beside every answer, a refusal too (`Steps`); `Moved` is the same of a cursor.
#[derive(Clone, Copy)]
pub struct TakenUnit {
    pub fifo: Fifo,
    pub draw: Draw,
    pub answer: StepAnswer,
}

// Takes the next unit: 1 to 5, then the look at the queue, the command's effect, and its bytes dropped.
pub fn take(
    fifo: Fifo,
    cp: &mut [u32; 60],
    bp: &mut [u32],
    draw: Draw,
    ring: &[u8],
    xf: &mut [u32],
    buffer: &mut [u8],
) -> TakenUnit
    ensures { Steps ring.now
        (state_of fifo cp.old bp.old draw xf.old buffer.old)
        result cp.new bp.new xf.new buffer.new }
{
    match machine::pass(fifo, cp, bp, draw, ring.len(), xf.len(), buffer.len()) {
        Err(reason) => TakenUnit {
            fifo,
            draw,
            answer: StepAnswer::Refused(reason),
        },
        Ok(()) => {
            let moved = unit::take_at(cursor::open(fifo), ring, cp, bp, draw, xf, buffer);
            TakenUnit {
                fifo: cursor::close(fifo, moved.cursor),
                draw: moved.draw,
                answer: moved.answer,
            }
        }
    }
}
