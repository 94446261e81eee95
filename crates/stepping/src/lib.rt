// Looking at a unit and taking one, on the state's words.
// As C has it: an answer is a number, and what is told or left goes to arrays that are lent.
#![tactic(auto)]

ghost use Rattle.std.specs.Prelude.{◌≡◌, length};
ghost use Rattle.machine.specs.State.{state_of};
ghost use Rattle.processor.specs.Step.{Steps};
ghost use Rattle.words.specs.State.{bp_of, state_at};
ghost use Rattle.stepping.specs.InPlace.{AheadKept};
ghost use Rattle.stepping.specs.Calls.{lent_of, Looks, TakesOne};

use command::{Draw, StepAnswer};
use fifo::Fifo;
use processor::TakenUnit;
use refusal::Reason;
use words::BP_PLACE;

// A taking whose BP registers are lent where they stand among the words.
// `runner::run_words` is the same of a run: each says its own call's promise, `Steps` or `Reports`, of the words.
fn take_words(
    state: &mut [u32],
    fifo: Fifo,
    cp: &mut [u32; 60],
    draw: Draw,
    ring: &[u8],
    xf: &mut [u32],
    vertex: &mut [u8],
) -> TakenUnit
    requires { length state.old ≡ 327 }
    ensures { (Steps ring.now
        (state_of fifo cp.old (bp_of state.old) draw xf.old vertex.old)
        result cp.new (bp_of state.new) xf.new vertex.new)
        × AheadKept state.old state.new }
{
    processor::take(fifo, cp, &mut state[BP_PLACE..], draw, ring, xf, vertex)
}

// Tells the next unit and changes nothing else: its command's five words and how many bytes it has; where it waits, how many are lacking.
pub fn look(
    state: &[u32; 327],
    ring: &[u8],
    xf: &[u32],
    vertex: &[u8],
    unit: &mut [u32; 6],
    lacking: &mut u32,
) -> u32
    ensures { Looks ring.now (state_at state.now xf.now vertex.now)
        unit.old lacking.old result unit.new lacking.new }
{
    let Some(front) = words::read_front(state) else {
        return u32::from(Reason::InvalidState);
    };
    let cp = words::cp(state);
    let bp = &state[BP_PLACE..];
    let answer = processor::look(front.fifo, &cp, bp, front.draw, ring, xf, vertex);
    answers::tell_answer(answer, unit, lacking)
}

// Takes the next unit, and tells what a look at it tells.
pub fn take(
    state: &mut [u32; 327],
    ring: &[u8],
    xf: &mut [u32],
    vertex: &mut [u8],
    unit: &mut [u32; 6],
    lacking: &mut u32,
) -> u32
    ensures { TakesOne ring.now (state_at state.old xf.old vertex.old)
        (lent_of state.old xf.old vertex.old) unit.old
        lacking.old result (lent_of state.new xf.new vertex.new)
        unit.new lacking.new }
{
    let Some(front) = words::read_front(state) else {
        return u32::from(Reason::InvalidState);
    };
    let mut cp = words::cp(state);
    let taken = take_words(state, front.fifo, &mut cp, front.draw, ring, xf, vertex);
    let StepAnswer::Done { command, .. } = taken.answer else {
        return answers::tell_answer(taken.answer, unit, lacking);
    };
    saving::save_unit(state, command, taken.fifo, &cp, taken.draw);
    answers::tell_answer(taken.answer, unit, lacking)
}
