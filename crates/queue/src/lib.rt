// The queue that the ring holds, and feeding bytes at the write pointer, in at most two straight stretches.
#![tactic(auto)]

ghost use Rattle.std.specs.Prelude.{◌≡◌, ◌+◌, ◌≤◌, ◌<◌, length};
ghost use Rattle.fifo.specs.Window.{size_of, Valid, Ready, count_of, accept};
ghost use Rattle.queue.specs.Feeding.{room_of, put, put_round, fed, FedBy};

use fifo::{Fifo, Window, gap, ready, size};
use refusal::Reason;

// Stores values from a place on; nothing where they do not all find room.
pub fn store<T: Copy>(out: &mut [T], at: usize, values: &[T])
    ensures fits { at + length values.now ≤ length out.old → out.new ≡ put out.old at values.now }
    ensures past_end { length out.old < at + length values.now → out.new ≡ out.old }
    ensures len { length out.new ≡ length out.old }
{
    if at <= out.len() && values.len() <= out.len() - at {
        out[at..at + values.len()].copy_from_slice(values);
    }
}

// Stores bytes from a place on and, past the ring's end, which is `straight` bytes on, from its start.
// `straight` is told and not computed: `fed` has it of the window, its end less the write pointer.
fn store_round(ring: &mut [u8], at: usize, straight: usize, bytes: &[u8])
    requires { (at + straight ≡ length ring.old) × (length bytes.now < length ring.old) }
    ensures { ring.new ≡ put_round ring.old at straight bytes.now }
{
    if bytes.len() <= straight {
        store(ring, at, bytes);
        return;
    }
    store(ring, at, &bytes[..straight]);
    store(ring, 0, &bytes[straight..]);
}

// Moves the write pointer n bytes on.
fn accept(fifo: &mut Fifo, n: u32)
    requires { Valid fifo.old.window × (n < size_of fifo.old.window) }
    ensures { fifo.new ≡ accept fifo.old n }
{
    let window = fifo.window;
    let straight = window.end - window.write;
    fifo.window.write = if n < straight {
        window.write + n
    } else {
        window.start + (n - straight)
    };
}

// How many bytes may be fed.
#[tactic(auto, using(fifo::proofs::WindowLaws::gap_count, fifo::proofs::WindowLaws::count_below))]
fn room(window: Window) -> u32
    requires { Valid window }
    ensures { result ≡ room_of window }
{
    size(window) - 1 - gap(window)
}

// Stores bytes that find room at the write pointer, and moves it on.
#[tactic(auto, unfolding(crate::specs::Feeding::fed))]
fn append(fifo: &mut Fifo, ring: &mut [u8], bytes: &[u8])
    requires ready { Ready fifo.old (length ring.old) }
    requires room { count_of fifo.old.window + length bytes.now < size_of fifo.old.window }
    ensures fifo_is { fifo.new ≡ accept fifo.old (length bytes.now) }
    ensures ring_is { ring.new ≡ fed fifo.old.window ring.old bytes.now }
{
    let window = fifo.window;
    let at = window.write - window.start;
    let straight = window.end - window.write;
    store_round(ring, at as usize, straight as usize, bytes);
    accept(fifo, bytes.len() as u32);
}

// Feeds bytes: 1 for a window or a ring that breaks the rules, then 11 for more bytes than there is room for;
// a refused feed changes nothing.
pub fn feed(fifo: &mut Fifo, ring: &mut [u8], bytes: &[u8]) -> Result<(), Reason>
    ensures { FedBy fifo.old ring.old bytes.now result fifo.new ring.new }
{
    if !ready(*fifo, ring.len()) {
        return Err(Reason::InvalidState);
    }
    if bytes.len() > room(fifo.window) as usize {
        return Err(Reason::FeedTooLong);
    }
    append(fifo, ring, bytes);
    Ok(())
}
