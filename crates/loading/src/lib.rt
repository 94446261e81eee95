// Runs of BP loads and of XF loads, off a plain slice of bytes, where they lie whole from a place on while no draw is open.
#![tactic(auto)]

ghost use Rattle.std.specs.Prelude.{unwrap_or};
ghost use Rattle.walk.specs.Moves.{MovesBp, MovesXf};
ghost use Rattle.loading.specs.Inner.{number_of, HeadOf};

use plain::Passed;

// The opcodes of the two loads.
const BP: u8 = 0x61;

const XF: u8 = 0x10;

// BP loads that follow each other, at most so many. This loop, that of `take_xf` and that of CP loads in `bulk` are three: over a closure
// each would promise a chain of calls, and the caller would make units on its own registers of them again, which is no plainer.
// One word, read at once and cut in two: the register and the number, as they stand in the stream.
#[tactic(auto, using(crate::proofs::Stored::bp_none))]
pub fn take_bp(bytes: &[u8], from: usize, bp: &mut [u32], most: u32) -> Passed
    ensures { MovesBp bytes.now from bp.old most result.units result.at bp.new }
{
    if bytes.len() < from {
        return Passed { units: 0, at: from };
    }
    let mut at = from;
    for units in 0..most {
        if bytes.len() - at < 5 || bytes[at] != BP {
            return Passed { units, at };
        }
        let word = octets::word(bytes[at + 1], bytes[at + 2], bytes[at + 3], bytes[at + 4]);
        effect::load_bp(bp, (word / 0x100_0000) as u8, word % 0x100_0000);
        at += 5;
    }
    Passed { units: most, at }
}

// The place after the XF load whose head was read, none where its words are not all there.
#[tactic(auto, using(crate::proofs::Stored::xf_none))]
fn take_words(bytes: &[u8], at: usize, xf: &mut [u32], words: u16, address: u16) -> Option<usize>
    requires { HeadOf bytes.now at words address }
    ensures { MovesXf bytes.now at xf.old 1 (number_of result) (unwrap_or result at) xf.new }
{
    let size = 5 + 4 * words as usize;
    if bytes.len() - at < size {
        return None;
    }
    let end = at + size;
    execution::load_xf(xf, &bytes[at..end], words as u8, address);
    Some(end)
}

// The place after an XF load, none where there is none.
#[tactic(auto, using(crate::proofs::Stored::xf_none))]
fn take_load(bytes: &[u8], at: usize, xf: &mut [u32]) -> Option<usize>
    ensures { MovesXf bytes.now at xf.old 1 (number_of result) (unwrap_or result at) xf.new }
{
    if bytes.len() < at || bytes.len() - at < 5 || bytes[at] != XF {
        return None;
    }
    let words = octets::half(bytes[at + 1], bytes[at + 2]) % 16 + 1;
    let address = octets::half(bytes[at + 3], bytes[at + 4]);
    if places::XF_COUNT < address as u32 + words as u32 {
        return None;
    }
    take_words(bytes, at, xf, words, address)
}

// XF loads that follow each other, at most so many.
#[tactic(auto, using(crate::proofs::Stored::xf_none))]
pub fn take_xf(bytes: &[u8], from: usize, xf: &mut [u32], most: u32) -> Passed
    ensures { MovesXf bytes.now from xf.old most result.units result.at xf.new }
{
    let mut at = from;
    for units in 0..most {
        let Some(end) = take_load(bytes, at, xf) else {
            return Passed { units, at };
        };
        at = end;
    }
    Passed { units: most, at }
}
