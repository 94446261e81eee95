// A run of units: takings until the limit, waiting or a refusal.
#![tactic(auto)]

mod stretch;
mod units;

ghost use Rattle.machine.specs.State.{state_of};
ghost use Rattle.running.specs.Run.{run_of, Reports};

use command::Draw;
use fifo::Fifo;
use refusal::Reason;

// Why a run stopped: "at its limit, at waiting or at a refusal".
// No Result: a limit and waiting are no errors.
#[derive(Clone, Copy)]
pub enum Stop {
    Limit,
    Waiting(u32),
    Refused(Reason),
}

// What a run leaves of the fifo and the draw, how many units it took, and why it stopped.
// Told beside every stop, a refusal too: a run keeps the units before and reports how many there were.
#[derive(Clone, Copy)]
pub struct Ran {
    pub fifo: Fifo,
    pub draw: Draw,
    pub units: u32,
    pub stop: Stop,
}

// A run of units: 1 to 5 once, then takings until the limit, waiting or a refusal. A limit above the most units counts as that.
// The gate first, as in a look and a taking. All is lent apart: C has the BP registers among the words of its state.
pub fn run(
    fifo: Fifo,
    cp: &mut [u32; 60],
    bp: &mut [u32],
    draw: Draw,
    ring: &[u8],
    xf: &mut [u32],
    buffer: &mut [u8],
    limit: u32,
) -> Ran
    ensures { Reports (run_of ring.now limit
        (state_of fifo cp.old bp.old draw xf.old buffer.old))
        result cp.new bp.new xf.new buffer.new }
{
    let most = limit.min(units::RUN_LIMIT);
    match machine::pass(fifo, cp, bp, draw, ring.len(), xf.len(), buffer.len()) {
        Err(reason) => Ran {
            fifo,
            draw,
            units: 0,
            stop: Stop::Refused(reason),
        },
        Ok(()) => units::take_units(fifo, ring, cp, bp, draw, xf, buffer, most),
    }
}
