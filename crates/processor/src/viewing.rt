// The next unit looked at and not taken.
// The gate first, as in a taking and a run. All is lent apart: C has the BP registers among the words of its state.
ghost use Rattle.std.specs.Prelude.{◌≡◌};
ghost use Rattle.machine.specs.State.{state_of};
ghost use Rattle.unit.specs.Answers.{meaning};
ghost use Rattle.processor.specs.Step.{step_found};

use command::{Draw, StepAnswer};
use fifo::Fifo;

// What the next unit is, with its length, or why there is none: 1 to 5, then what the queue begins with. Nothing changes.
pub fn look(
    fifo: Fifo,
    cp: &[u32; 60],
    bp: &[u32],
    draw: Draw,
    ring: &[u8],
    xf: &[u32],
    buffer: &[u8],
) -> StepAnswer
    ensures { meaning result ≡ step_found ring.now
        (state_of fifo cp.now bp.now draw xf.now buffer.now) }
{
    match machine::pass(fifo, cp, bp, draw, ring.len(), xf.len(), buffer.len()) {
        Err(reason) => StepAnswer::Refused(reason),
        Ok(()) => unit::look_at(cursor::open(fifo), ring, cp, draw),
    }
}
