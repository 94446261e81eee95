// What the stream goes on with, one function for each class of opcode but draws.
// The bytes are the first nine, zeros past the last; `count` is how many there are in all.
ghost use Rattle.std.specs.Prelude.{◌≡◌, ◌<◌};
ghost use Rattle.command.specs.Command.{numbers_of, meaning};
ghost use Rattle.command.specs.Look.{whole, look_cp, look_xf, look_indexed, look_call, look_bp, memory_of};

use crate::{Command, StepAnswer};
use refusal::Reason;

// A unit of so many bytes: it waits for those that it lacks.
#[tactic(auto, unfolding(crate::specs::Look::whole))]
pub fn unit(count: u32, length: u32, command: Command, memory: u32) -> StepAnswer
    ensures { meaning result ≡ whole count length (numbers_of command) memory }
{
    if count < length {
        return StepAnswer::Waiting(length - count);
    }
    StepAnswer::Done {
        command,
        memory,
        length,
    }
}

// 08.
#[tactic(auto, unfolding(crate::specs::Look::look_cp, octets::specs::BigEndian::big_endian))]
pub fn look_cp(b: [u8; 9], count: u32) -> StepAnswer
    ensures { meaning result ≡ look_cp b count }
{
    if count < 2 {
        return StepAnswer::Waiting(6 - count);
    }
    let address = b[1];
    if places::cp_accepted(address) {
        let number = octets::word(b[2], b[3], b[4], b[5]);
        return unit(count, 6, Command::LoadCp { address, number }, 0);
    }
    StepAnswer::Refused(Reason::UnknownCpAddress)
}

// 10.
#[tactic(auto, unfolding(crate::specs::Look::look_xf, crate::specs::Look::xf_words, crate::specs::Look::xf_address, octets::specs::BigEndian::big_endian))]
pub fn look_xf(b: [u8; 9], count: u32) -> StepAnswer
    ensures { meaning result ≡ look_xf b count }
{
    if count < 5 {
        return StepAnswer::Waiting(5 - count);
    }
    let words = octets::half(b[1], b[2]) % 16 + 1;
    let address = octets::half(b[3], b[4]);
    if places::XF_COUNT < address as u32 + words as u32 {
        return StepAnswer::Refused(Reason::XfLoadPastEnd);
    }
    let command = Command::LoadXf {
        words: words as u8,
        address,
    };
    unit(count, 5 + 4 * words as u32, command, 0)
}

// The main-memory address of an element of an array.
#[tactic(auto, unfolding(crate::specs::Look::memory_of))]
fn memory(cp: &[u32; 60], array: u8, index: u16) -> u32
    requires { array < 16 }
    ensures { result ≡ memory_of cp.now array index }
{
    let base = cp[places::base_place(array)] % 0x400_0000;
    let stride = cp[places::stride_place(array)] % 256;
    base + index as u32 * stride
}

// 20, 28, 30, 38.
#[tactic(auto, unfolding(crate::specs::Look::look_indexed, octets::specs::BigEndian::big_endian))]
pub fn look_indexed(op: u8, b: [u8; 9], count: u32, cp: &[u32; 60]) -> StepAnswer
    ensures { meaning result ≡ look_indexed op b count cp.now }
{
    let array = 12 + op / 8 % 4;
    let index = octets::half(b[1], b[2]);
    let rest = octets::half(b[3], b[4]);
    let command = Command::LoadIndexed {
        array,
        index,
        words: (rest / 4096 + 1) as u8,
        address: rest % 4096,
    };
    unit(count, 5, command, memory(cp, array, index))
}

// 40.
#[tactic(auto, unfolding(crate::specs::Look::look_call, octets::specs::BigEndian::big_endian))]
pub fn look_call(b: [u8; 9], count: u32) -> StepAnswer
    ensures { meaning result ≡ look_call b count }
{
    let address = octets::word(b[1], b[2], b[3], b[4]);
    let size = octets::word(b[5], b[6], b[7], b[8]);
    unit(count, 9, Command::CallList { address, size }, 0)
}

// 61.
#[tactic(auto, unfolding(crate::specs::Look::look_bp, octets::specs::BigEndian::big_endian))]
pub fn look_bp(b: [u8; 9], count: u32) -> StepAnswer
    ensures { meaning result ≡ look_bp b count }
{
    let register = b[1];
    let number = octets::word(0, b[2], b[3], b[4]);
    unit(count, 5, Command::LoadBp { register, number }, 0)
}
