// Running many units, on the state's words.
// As C has it: an answer is a number, and what is told or left goes to arrays that are lent.
#![tactic(auto)]

ghost use Rattle.std.specs.Prelude.{◌≡◌, length};
ghost use Rattle.machine.specs.Gate.{gate_by};
ghost use Rattle.machine.specs.State.{state_of};
ghost use Rattle.running.specs.Run.{run_of, Reports};
ghost use Rattle.words.specs.State.{cp_of, bp_of, state_at};
ghost use Rattle.stepping.specs.InPlace.{AheadKept};
ghost use Rattle.stepping.specs.Calls.{lent_of, Ends};

use command::Draw;
use fifo::Fifo;
use refusal::Reason;
use running::Ran;
use words::{BP_PLACE, Front};

// A run whose BP registers are lent where they stand among the words.
// `stepping::take_words` is the same of a taking: each says its own call's promise, `Steps` or `Reports`, of the words.
fn run_words(
    state: &mut [u32],
    fifo: Fifo,
    cp: &mut [u32; 60],
    draw: Draw,
    ring: &[u8],
    xf: &mut [u32],
    vertex: &mut [u8],
    limit: u32,
) -> Ran
    requires { length state.old ≡ 327 }
    ensures { (Reports (run_of ring.now limit
        (state_of fifo cp.old (bp_of state.old) draw xf.old vertex.old))
        result cp.new (bp_of state.new) xf.new vertex.new)
        × AheadKept state.old state.new }
{
    running::run(
        fifo,
        cp,
        &mut state[BP_PLACE..],
        draw,
        ring,
        xf,
        vertex,
        limit,
    )
}

// The first of 1 to 5 that applies to the words as they stand, 0 where none does. The copy is only read, and the compiler leaves it out.
fn gate_number(
    state: &[u32; 327],
    fifo: Fifo,
    draw: Draw,
    ring: usize,
    xf: usize,
    vertex: usize,
) -> u32
    ensures { result ≡ gate_by fifo (cp_of state.now) (bp_of state.now) draw ring xf vertex }
{
    let cp = words::cp(state);
    let bp = &state[BP_PLACE..];
    encoding::answer_number(machine::pass(fifo, &cp, bp, draw, ring, xf, vertex))
}

// Takes units until the limit, waiting or a refusal. Its report: the units done, and the bytes lacking, 0 unless it waits.
pub fn run(
    state: &mut [u32; 327],
    ring: &[u8],
    xf: &mut [u32],
    vertex: &mut [u8],
    limit: u32,
    report: &mut [u32; 2],
) -> u32
    ensures { Ends (run_of ring.now limit (state_at state.old xf.old vertex.old))
        (lent_of state.old xf.old vertex.old)
        result (lent_of state.new xf.new vertex.new) report.new }
{
    *report = [0, 0];
    let Some(front) = words::read_front(state) else {
        return u32::from(Reason::InvalidState);
    };
    let Front { fifo, draw } = front;
    if limit == 0 {
        return gate_number(state, fifo, draw, ring.len(), xf.len(), vertex.len());
    }
    let mut cp = words::cp(state);
    let ran = run_words(state, fifo, &mut cp, draw, ring, xf, vertex, limit);
    *report = [ran.units, answers::stop_lacking(ran.stop)];
    let is_idle = ran.units == 0;
    if is_idle {
        return answers::stop_number(ran.stop);
    }
    saving::save_before_bp(state, ran.fifo, &cp, ran.draw);
    answers::stop_number(ran.stop)
}
