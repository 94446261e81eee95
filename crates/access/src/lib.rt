// The state's words and the ring: the fresh state, the hardware registers and feeding. Answers are the C interface's numbers, 0 or the
// refusal's.
#![tactic(auto)]

ghost use Rattle.std.specs.Prelude.{◌≡◌};
ghost use Rattle.words.specs.State.{window_of, fresh_words};
ghost use Rattle.access.specs.Calls.{ReadsRegister, WritesRegister, Feeds};

use fifo::Fifo;
use machine::Machine;

// The hardware offset of the control register, whose state word may be wider than the register.
const CONTROL: u16 = 0x002;

// The fresh state.
pub fn fresh(state: &mut [u32; 327])
    ensures { state.new ≡ fresh_words }
{
    let Machine { fifo, registers } = machine::fresh();
    saving::save(state, fifo, &registers.cp, &registers.bp, registers.draw);
}

// The fifo of the state's window, with no control word: no call goes by it.
fn bare(state: &[u32; 327]) -> Fifo
    ensures { result ≡ record { window = window_of state.now; control = 0 } }
{
    Fifo {
        window: words::window(state),
        control: 0,
    }
}

// Reads a hardware register; the control register as its word stands.
pub fn read_register(state: &[u32; 327], offset: u16, value: &mut u32) -> u32
    ensures { ReadsRegister state.now offset value.old result value.new }
{
    if offset == CONTROL {
        *value = state[6];
        return 0;
    }
    match registers::read_register(bare(state), state[7] != 0, offset) {
        Err(reason) => u32::from(reason),
        Ok(held) => {
            *value = u32::from(held);
            0
        }
    }
}

// Writes a hardware register.
pub fn write_register(state: &mut [u32; 327], offset: u16, value: u16) -> u32
    ensures { WritesRegister state.old offset value result state.new }
{
    let mut fifo = bare(state);
    if let Err(reason) = registers::write_register(&mut fifo, offset, value) {
        return u32::from(reason);
    }
    if offset == CONTROL {
        saving::save_control(state, fifo.control);
        return 0;
    }
    saving::save_window(state, fifo.window);
    0
}

// Feeds bytes to the ring.
pub fn feed(state: &mut [u32; 327], ring: &mut [u8], bytes: &[u8]) -> u32
    ensures { Feeds state.old ring.old bytes.now result state.new ring.new }
{
    let mut fifo = bare(state);
    if let Err(reason) = queue::feed(&mut fifo, ring, bytes) {
        return u32::from(reason);
    }
    saving::save_write(state, fifo.window.write);
    0
}
