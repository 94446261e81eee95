// The bytes that a cursor stands before, read: copied to the front of a list, or the first nine. Total by definition.
#![tactic(auto)]

ghost use Rattle.std.specs.Prelude.{◌≡◌, ◌+◌, ◌<◌, ◌≤◌, ◌^◌, length, slice_range};
ghost use Rattle.laws.specs.Values.{up_to};
ghost use Rattle.cursor.specs.Cursor.{byte_of, peeked, copied};
ghost use Rattle.reading.specs.Inner.{round_by, Round};

use cursor::{Cursor, forward, straight};

// A cursor before the ring whose bytes it counts.
#[derive(Clone, Copy)]
struct Pending<'a> {
    cursor: Cursor,
    ring: &'a [u8],
}

impl Pending<'_> {
    // The cursor's byte k, 0 past the last.
    #[tactic(auto, unfolding(cursor::specs::Cursor::byte_of))]
    fn byte(self, k: u32) -> u8
        ensures { result ≡ byte_of self.entry.cursor self.entry.ring.now k }
    {
        let cursor = self.cursor;
        if cursor.left <= k {
            return 0;
        }
        let place = forward(cursor.at, k, cursor.size) as usize;
        self.ring.get(place).copied().unwrap_or(0)
    }

    // Fills a list byte after byte, for cursors and lengths that fit neither other way: past the last byte, or a ring shorter than the
    // cursor's size.
    fn gather(self, out: &mut [u8])
        requires { length out.old < 2 ^ 32 }
        ensures { out.new ≡ up_to (byte_of self.entry.cursor self.entry.ring.now) (length out.old) }
    {
        // By index: of what iter_mut went over a proof knows only the length.
        for k in 0..out.len() {
            out[k] = self.byte(k as u32);
        }
    }

    // Whether the first n bytes are there and lie in two stretches, up to the cursor's size and from the ring's first byte on.
    #[tactic(auto, unfolding(crate::specs::Inner::round_by))]
    fn round(self, n: u32) -> bool
        ensures { result ≡ round_by self.entry.cursor (length self.entry.ring.now) n }
    {
        let Cursor { at, left, size } = self.cursor;
        let len = self.ring.len();
        let first = size.saturating_sub(at);
        let rest = n.saturating_sub(first);
        ((n <= left) & (at <= size))
            & ((first <= n) & ((size as usize <= len) & (rest as usize <= len)))
    }

    // Fills a list with bytes that lie in two stretches.
    fn fill_round(self, out: &mut [u8])
        requires { Round self.cursor (length self.ring.now) (length out.old) }
        ensures { out.new ≡ up_to (byte_of self.entry.cursor self.entry.ring.now) (length out.old) }
    {
        let at = self.cursor.at as usize;
        let size = self.cursor.size as usize;
        let (front, back) = out.split_at_mut(size - at);
        let rest = back.len();
        front.copy_from_slice(&self.ring[at..size]);
        back.copy_from_slice(&self.ring[..rest]);
    }

    // Fills a list with the first bytes, in one stretch or two where they lie so.
    fn fill(self, out: &mut [u8])
        requires { length out.old < 2 ^ 32 }
        ensures { out.new ≡ up_to (byte_of self.entry.cursor self.entry.ring.now) (length out.old) }
    {
        let n = out.len() as u32;
        let at = self.cursor.at as usize;
        let end = at + out.len();
        if straight(self.cursor, n) & (end <= self.ring.len()) {
            out.copy_from_slice(&self.ring[at..end]);
        } else if self.round(n) {
            self.fill_round(out);
        } else {
            self.gather(out);
        }
    }
}

// Copies the first n bytes to the front of `out`, or as many as it has place for; the rest of it stays.
// `n` beside `out`: `copied` has both, since n may be more than the list has place for.
#[tactic(auto, unfolding(cursor::specs::Cursor::copied))]
pub fn copy(cursor: Cursor, ring: &[u8], out: &mut [u8], n: u32)
    ensures { out.new ≡ copied cursor ring.now out.old n }
{
    let n = out.len().min(n as usize);
    Pending { cursor, ring }.fill(&mut out[..n]);
}

// Nine bytes of the ring from a place on.
fn nine(ring: &[u8], at: usize) -> [u8; 9]
    requires { at + 9 ≤ length ring.now }
    ensures { result ≡ slice_range ring.now at (at + 9) }
{
    let mut bytes = [0u8; 9];
    bytes.copy_from_slice(&ring[at..at + 9]);
    bytes
}

// The first nine bytes, zeros past the last.
// Nine bytes and no slice: `peeked` has zeros past the last, and a look reads its opcode's fields at fixed places.
pub fn peek(cursor: Cursor, ring: &[u8]) -> [u8; 9]
    ensures { result ≡ peeked cursor ring.now }
{
    let at = cursor.at as usize;
    if straight(cursor, 9) & (at + 9 <= ring.len()) {
        return nine(ring, at);
    }
    let mut bytes = [0u8; 9];
    let there = cursor.left.min(9);
    copy(cursor, ring, &mut bytes, there);
    bytes
}
