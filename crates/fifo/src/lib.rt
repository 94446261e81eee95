// What one port owns of the command stream: the ring window, its rules and its count.
#![tactic(auto)]

mod rules;

ghost use Rattle.std.specs.Prelude.{◌≡◌};
ghost use Rattle.fifo.specs.Window.{with_window, fresh_fifo};

pub use rules::{count, gap, ready, size, valid};

// The most bytes of a ring: one mebibyte.
pub const SIZE_LIMIT: u32 = 1048576;

// The ring window: the hardware registers 020 to 03A, but for the count. The end is exclusive.
#[derive(Clone, Copy, Debug, Default, PartialEq, Eq)]
pub struct Window {
    pub start: u32,
    pub end: u32,
    pub high: u32,
    pub low: u32,
    pub write: u32,
    pub read: u32,
}

// What one port owns: the window and the control word.
#[derive(Clone, Copy, Debug, PartialEq, Eq)]
pub struct Fifo {
    pub window: Window,
    pub control: u16,
}

// "Fresh state: control 0010 (hex), .. every other register zero".
#[tactic(auto, unfolding(crate::specs::Window::fresh_fifo))]
pub fn fresh() -> Fifo
    ensures { result ≡ fresh_fifo }
{
    Fifo {
        window: Window::default(),
        control: 0x10,
    }
}

// The fifo with another window.
pub fn with_window(fifo: Fifo, window: Window) -> Fifo
    ensures { result ≡ with_window fifo window }
{
    Fifo { window, ..fifo }
}
