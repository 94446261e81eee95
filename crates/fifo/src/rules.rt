// The window's rules, and the count.
ghost use Rattle.std.specs.Prelude.{◌≡◌};
ghost use Rattle.fifo.specs.Window.{size_of, valid_by, ready_by, gap_of};
ghost use Rattle.fifo.specs.Answers.{meaning_of_count, count_answer};

use crate::{Fifo, SIZE_LIMIT, Window};
use refusal::Reason;

// The bytes of the ring: the end is exclusive, and a window whose end is below its start has size 0.
pub fn size(window: Window) -> u32
    ensures { result ≡ size_of window }
{
    window.end.saturating_sub(window.start)
}

// Whether the window obeys its rules.
#[tactic(auto, unfolding(crate::specs::Window::valid_by, crate::specs::Window::size_limit))]
pub fn valid(window: Window) -> bool
    ensures { result ≡ valid_by window }
{
    let Window {
        start,
        end,
        write,
        read,
        ..
    } = window;
    let size = size(window);
    (256 <= size)
        & (size <= SIZE_LIMIT)
        & (start % 32 == 0)
        & (size % 32 == 0)
        & (start <= write)
        & (write < end)
        & (start <= read)
        & (read < end)
}

// Whether the window obeys its rules and the ring has its size.
#[tactic(auto, unfolding(crate::specs::Window::ready_by))]
pub fn ready(fifo: Fifo, len: usize) -> bool
    ensures { result ≡ ready_by fifo len }
{
    valid(fifo.window) & (len == size(fifo.window) as usize)
}

// The bytes from the read pointer round to the write pointer: the count, where the window obeys its rules.
#[tactic(auto, unfolding(crate::specs::Window::gap_of))]
pub fn gap(window: Window) -> u32
    ensures { result ≡ gap_of window }
{
    let Window { write, read, .. } = window;
    if read <= write {
        write - read
    } else {
        size(window).saturating_sub(read - write)
    }
}

// "Count is (write minus read) modulo size; equal pointers mean empty."
#[tactic(auto, using(crate::proofs::WindowLaws::gap_valid), unfolding(crate::specs::Answers::count_answer))]
pub fn count(fifo: Fifo) -> Result<u32, Reason>
    ensures { meaning_of_count result ≡ count_answer fifo }
{
    if valid(fifo.window) {
        Ok(gap(fifo.window))
    } else {
        Err(Reason::InvalidState)
    }
}
