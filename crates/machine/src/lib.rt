// The machine's state: the registers that ports share beside the fifo, the fresh state, and refusals 1 to 5 (document 01's "bench").
#![tactic(auto)]

mod tests;

ghost use Rattle.std.specs.Prelude.{◌≡◌};
ghost use Rattle.fifo.specs.Answers.{meaning_of_reading};
ghost use Rattle.registers.specs.Registers.{read_answer};
ghost use Rattle.machine.specs.State.{fresh_machine, drawing_of};

use command::Draw;
use fifo::Fifo;
use refusal::Reason;
pub use tests::{pass, registers_fit};

// What ports share: the 60 CP registers, the 256 BP registers, and the open draw. A look, a taking and a run are lent the registers.
#[derive(Clone, Copy)]
pub struct Registers {
    pub cp: [u32; 60],
    pub bp: [u32; 256],
    pub draw: Draw,
}

// The fresh state: the fifo's beside the registers'.
#[derive(Clone, Copy)]
pub struct Machine {
    pub fifo: Fifo,
    pub registers: Registers,
}

// "Every BP register of the fresh machine is named": 256 zero words with place FE then set.
#[tactic(auto, unfolding(crate::specs::State::fresh_machine))]
pub fn fresh() -> Machine
    ensures { result ≡ fresh_machine }
{
    let mut bp = [0u32; 256];
    bp[0xFE] = 0xFF_FFFF;
    let registers = Registers {
        cp: [0u32; 60],
        bp,
        draw: Draw::Closed,
    };
    Machine {
        fifo: fifo::fresh(),
        registers,
    }
}

// Whether a draw is open.
fn drawing(draw: Draw) -> bool
    ensures { result ≡ drawing_of draw }
{
    matches!(draw, Draw::Open { .. })
}

// A hardware register of the machine; status bit 3 goes by the open draw.
pub fn read_register(fifo: Fifo, registers: Registers, offset: u16) -> Result<u16, Reason>
    ensures { meaning_of_reading result ≡ read_answer fifo (drawing_of registers.draw) offset }
{
    registers::read_register(fifo, drawing(registers.draw), offset)
}
