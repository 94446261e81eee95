// The state stored in the 327 words that the C interface has: all of them, or those that a call changed.
#![tactic(auto)]

ghost use Rattle.std.specs.Prelude.{◌≡◌, length};
ghost use Rattle.command.specs.Command.{kind_of, numbers_of};
ghost use Rattle.fifo.specs.Window.{with_window, with_write, with_control};
ghost use Rattle.words.specs.State.{window_of, fifo_of, cp_of, bp_of};
ghost use Rattle.words.specs.State.{window_words, draw_words, words_by, fifo_stored};
ghost use Rattle.words.specs.Front.{words_after_unit};

use command::{Command, Draw};
use fifo::{Fifo, Window};
use queue::store;
use words::{BP_PLACE, CP_PLACE, DRAW_PLACE};

// Words 0 to 5.
// `window_words` and `draw_words` are functions and no From: neither side of them is a type of this crate.
fn window_words(window: Window) -> [u32; 6]
    ensures { result ≡ window_words window }
{
    [
        window.start,
        window.end,
        window.high,
        window.low,
        window.write,
        window.read,
    ]
}

// Words 7 to 10: zeros while no draw is open.
fn draw_words(draw: Draw) -> [u32; 4]
    ensures { result ≡ draw_words draw }
{
    match draw {
        Draw::Closed => [0, 0, 0, 0],
        Draw::Open {
            primitive,
            format,
            left,
        } => [1, u32::from(primitive), u32::from(format), u32::from(left)],
    }
}

// Writes words 0 to 5.
#[tactic(auto, using(words::proofs::Places::put_window))]
pub fn save_window(state: &mut [u32; 327], window: Window)
    ensures { state.new ≡ fifo_stored state.old (with_window (fifo_of state.old) window) }
{
    store(state, 0, &window_words(window));
}

// Writes the write pointer, word 4.
#[tactic(auto, using(words::proofs::Places::set_write))]
pub fn save_write(state: &mut [u32; 327], pointer: u32)
    ensures { state.new
        ≡ fifo_stored state.old (with_window (fifo_of state.old) (with_write (window_of state.old) pointer)) }
{
    state[4] = pointer;
}

// Writes the control word, word 6.
#[tactic(auto, using(words::proofs::Places::set_control))]
pub fn save_control(state: &mut [u32; 327], control: u16)
    ensures { state.new ≡ fifo_stored state.old (with_control (fifo_of state.old) control) }
{
    state[6] = u32::from(control);
}

// Writes words 0 to 6.
#[tactic(auto, unfolding(words::specs::State::fifo_stored, words::specs::State::fifo_of))]
fn save_fifo(state: &mut [u32; 327], fifo: Fifo)
    ensures { state.new ≡ fifo_stored state.old fifo }
{
    save_window(state, fifo.window);
    save_control(state, fifo.control);
}

// Writes words 0 to 10.
fn save_front(state: &mut [u32; 327], fifo: Fifo, draw: Draw)
    ensures { (state.new ≡ words_by fifo (cp_of state.old) (bp_of state.old) draw)
        × (length state.old ≡ 327) }
{
    save_fifo(state, fifo);
    store(state, DRAW_PLACE, &draw_words(draw));
}

// Writes words 0 to 70: all before the BP registers.
// cp and draw go one by one: a taking and a run change the BP registers where they stand in the words, and have no `Registers`.
pub fn save_before_bp(state: &mut [u32; 327], fifo: Fifo, cp: &[u32; 60], draw: Draw)
    ensures { state.new ≡ words_by fifo cp.now (bp_of state.old) draw }
{
    save_front(state, fifo, draw);
    store(state, CP_PLACE, cp);
}

// Writes words 7 to 326: the draw and the registers. The window and the control word stay.
pub fn save_registers(state: &mut [u32; 327], cp: &[u32; 60], bp: &[u32; 256], draw: Draw)
    ensures { state.new ≡ words_by (fifo_of state.old) cp.now bp.now draw }
{
    store(state, DRAW_PLACE, &draw_words(draw));
    store(state, CP_PLACE, cp);
    store(state, BP_PLACE, bp);
}

// Writes all words.
#[tactic(auto, unfolding(words::specs::State::fifo_stored, words::specs::State::fifo_of))]
pub fn save(state: &mut [u32; 327], fifo: Fifo, cp: &[u32; 60], bp: &[u32; 256], draw: Draw)
    ensures { state.new ≡ words_by fifo cp.now bp.now draw }
{
    save_fifo(state, fifo);
    save_registers(state, cp, bp, draw);
}

// Writes words 0 to 10, and the CP registers where a command loads one.
pub fn save_unit(state: &mut [u32; 327], command: Command, fifo: Fifo, cp: &[u32; 60], draw: Draw)
    ensures { state.new ≡ words_after_unit state.old (kind_of (numbers_of command)) fifo cp.now draw }
{
    save_front(state, fifo, draw);
    if let Command::LoadCp { .. } = command {
        store(state, CP_PLACE, cp);
    }
}
