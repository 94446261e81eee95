// A recording as one file (document 02, L1): its format, and the faults of a file, found at its first place. The crates `recordreader` and
// `recordwriter` read and write it.
#![tactic(auto)]

ghost use Rattle.std.specs.Prelude.{◌≡◌, ◌*◌, ◌≤◌, cond, [], ◌∷◌, length};
ghost use Rattle.refusal.specs.Number.{number};
ghost use Rattle.recording.specs.Format.{number_count};
ghost use Rattle.recording.specs.Searching.{SearchesPart};
ghost use Rattle.recording.specs.Faults.{stream_limit, number_fault, head_fault, head_place, rest_fault};
ghost use Rattle.recording.specs.Answers.{meaning_of_verdict, meaning_of_fault};

use refusal::Reason;
use std::fmt;

// The first bytes of a file: 256, the count of its BP registers. No raw stream gets past its third byte with them, since 01 is no opcode.
pub const FIRST_BYTES: [u8; 4] = [0, 0, 1, 0];

// The longest stream.
pub const STREAM_LIMIT: u32 = 1048575;

// The numbers of a file before its stream, by their place among them: the counts of CP, of XF and of the stream, the first array base and
// the first stride, and how many there are. Number 0 is the count of BP.
pub const CP_COUNT_AT: u32 = 257;

const BASES_FROM: u32 = 286;

const STRIDES_FROM: u32 = 302;

pub const XF_COUNT_AT: u32 = 318;

pub const STREAM_COUNT_AT: u32 = 4503;

const NUMBERS: u32 = 4504;

// How many bytes stand before the stream: numbers of 4 bytes.
pub const HEAD_LENGTH: usize = 18016;

// The first fault of a file's numbers, and the byte where it stands.
#[derive(Clone, Copy, Debug, PartialEq, Eq)]
pub struct Fault {
    pub place: u32,
    pub reason: Reason,
}

// As the programs tell it.
impl fmt::Display for Fault {
    fn fmt<W: fmt::Write>(&self, f: &mut fmt::Formatter<W>) -> fmt::Result {
        let Fault { place, reason } = *self;
        let number = u32::from(reason);
        write!(f, "bad file {number} at byte {place}: {reason}")
    }
}

// Sound where a test holds, else refused for this reason.
// An if: `holds.then_some(()).ok_or(reason)` says the same and is no plainer.
fn unless(holds: bool, reason: Reason) -> Result<(), Reason>
    ensures { meaning_of_verdict result ≡ cond holds 0 (number reason) }
{
    if holds { Ok(()) } else { Err(reason) }
}

// The fault of a number by its place: a wrong count, or a number too wide for its register. The other CP registers and the XF words have
// all 32 bits. The arm of the BP registers stands first, since most of the numbers that can have a fault are theirs.
#[tactic(auto, unfolding(crate::specs::Faults::number_fault))]
fn fault_of(k: u32, value: u32) -> Result<(), Reason>
    ensures { meaning_of_verdict result ≡ number_fault stream_limit k value }
{
    match k {
        1..CP_COUNT_AT => unless(value < 0x100_0000, Reason::NumberTooWide),
        0 => unless(value == places::BP_COUNT as u32, Reason::WrongCount),
        CP_COUNT_AT => unless(value == places::COUNT as u32, Reason::WrongCount),
        BASES_FROM..STRIDES_FROM => unless(value < 0x400_0000, Reason::NumberTooWide),
        STRIDES_FROM..XF_COUNT_AT => unless(value < 256, Reason::NumberTooWide),
        XF_COUNT_AT => unless(value == places::XF_COUNT, Reason::WrongCount),
        STREAM_COUNT_AT.. => unless(value <= STREAM_LIMIT, Reason::WrongCount),
        _ => Ok(()),
    }
}

// Searches the numbers from one on and before another in their order; the search ends at the first fault.
fn search_part(file: &[u8], from: u32, to: u32) -> Option<Fault>
    requires ordered { from ≤ to }
    requires inside { to ≤ number_count }
    requires whole { 4 * from ≤ length file.now }
    ensures { SearchesPart file.now from to result }
{
    for k in from..to {
        let place = 4 * k;
        if file.len() < place as usize + 4 {
            return Some(Fault {
                place: file.len() as u32,
                reason: Reason::FileShort,
            });
        }
        if let Err(reason) = fault_of(k, octets::word_at(file, place)) {
            return Some(Fault { place, reason });
        }
    }
    None
}

// Searches the numbers of a file in their order, for the first fault. An XF word is never at fault where it is there, so that of the XF
// words only their number of bytes is looked at.
pub fn search(file: &[u8]) -> Option<Fault>
    ensures { meaning_of_fault result
        ≡ head_fault stream_limit file.now ∷ head_place stream_limit file.now ∷ [] }
{
    if let Some(fault) = search_part(file, 0, XF_COUNT_AT + 1) {
        return Some(fault);
    }
    if file.len() < 4 * STREAM_COUNT_AT as usize {
        return Some(Fault {
            place: file.len() as u32,
            reason: Reason::FileShort,
        });
    }
    search_part(file, STREAM_COUNT_AT, NUMBERS)
}

// Whether so many bytes behind the numbers are the stream that its count tells.
#[tactic(auto, unfolding(crate::specs::Faults::rest_fault))]
pub fn check_rest(told: u32, rest: usize) -> Result<(), Reason>
    ensures { meaning_of_verdict result ≡ rest_fault told rest }
{
    if rest < told as usize {
        return Err(Reason::FileShort);
    }
    if rest > told as usize {
        return Err(Reason::FileLong);
    }
    Ok(())
}
