// A cursor over pending bytes: opened at the read pointer, moved on, closed. Total by definition.
#![tactic(auto)]

ghost use Rattle.std.specs.Prelude.{◌≡◌};
ghost use Rattle.cursor.specs.Cursor.{opened, onward, skipped, straight_by, closed};

use fifo::{Fifo, Window, gap, size, with_window};

// Where the pending bytes stand in the ring: the place of the first, how many are left, and the ring's size.
#[derive(Clone, Copy, Debug, PartialEq, Eq)]
pub struct Cursor {
    pub at: u32,
    pub left: u32,
    pub size: u32,
}

// The cursor at the read pointer, with all pending bytes left.
#[tactic(auto, unfolding(crate::specs::Cursor::opened))]
pub fn open(fifo: Fifo) -> Cursor
    ensures { result ≡ opened fifo }
{
    let window = fifo.window;
    Cursor {
        at: window.read.saturating_sub(window.start),
        left: gap(window),
        size: size(window),
    }
}

// The place n bytes after another, at most one turn on.
#[tactic(auto, unfolding(crate::specs::Cursor::onward))]
pub fn forward(at: u32, n: u32, size: u32) -> u32
    ensures { result ≡ onward at n size }
{
    let straight = size.saturating_sub(at);
    if n < straight { at + n } else { n - straight }
}

// The cursor n bytes on.
#[tactic(auto, unfolding(crate::specs::Cursor::skipped))]
pub fn skip(cursor: Cursor, n: u32) -> Cursor
    ensures { result ≡ skipped cursor n }
{
    Cursor {
        at: forward(cursor.at, n, cursor.size),
        left: cursor.left.saturating_sub(n),
        ..cursor
    }
}

// Whether the first n bytes are there and lie in one stretch, `ring[at..at + n]`.
#[tactic(auto, unfolding(crate::specs::Cursor::straight_by))]
pub fn straight(cursor: Cursor, n: u32) -> bool
    ensures { result ≡ straight_by cursor n }
{
    (n <= cursor.left) & (n <= cursor.size.saturating_sub(cursor.at))
}

// The fifo with its read pointer at the cursor; a cursor outside the window leaves it.
#[tactic(auto, unfolding(crate::specs::Cursor::closed))]
pub fn close(fifo: Fifo, cursor: Cursor) -> Fifo
    ensures { result ≡ closed fifo cursor }
{
    let window = fifo.window;
    if cursor.at < size(window) {
        let window = Window {
            read: window.start + cursor.at,
            ..window
        };
        with_window(fifo, window)
    } else {
        fifo
    }
}
