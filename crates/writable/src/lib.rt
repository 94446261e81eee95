// What a command is refused for before any byte is written.
#![tactic(auto)]

ghost use Rattle.std.specs.Prelude.{◌≡◌};
ghost use Rattle.command.specs.Command.{numbers_of};
ghost use Rattle.writable.specs.Writable.{unwritable, unaddressed, past_end};

use command::Command;

// A vertex, a field out of range, or lent words that are not as many as an XF load names.
#[tactic(auto, unfolding(crate::specs::Writable::unwritable))]
pub fn unwritable(command: Command, lent: usize) -> bool
    ensures { result ≡ unwritable (numbers_of command) lent }
{
    match command {
        Command::Vertex => true,
        Command::LoadXf { words, .. } => !(matches!(words, 1..=16) && words as usize == lent),
        Command::LoadIndexed {
            array,
            words,
            address,
            ..
        } => !(matches!(array, 12..=15) && matches!(words, 1..=16) && address < 4096),
        Command::LoadBp { number, .. } => 0x100_0000 <= number,
        Command::DrawHead {
            primitive,
            format,
            ..
        } => 8 <= primitive || 8 <= format,
        _ => false,
    }
}

// A CP load to an address that is none.
#[tactic(auto, unfolding(crate::specs::Writable::unaddressed))]
pub fn unaddressed(command: Command) -> bool
    ensures { result ≡ unaddressed (numbers_of command) }
{
    matches!(command, Command::LoadCp { address, .. } if !places::cp_accepted(address))
}

// An XF load past the end of the XF memory.
#[tactic(auto, unfolding(crate::specs::Writable::past_end))]
pub fn past_end(command: Command) -> bool
    ensures { result ≡ past_end (numbers_of command) }
{
    matches!(command, Command::LoadXf { words, address } if places::XF_COUNT < address as u32 + words as u32)
}
