// The command that five words name, and a unit as six words.
ghost use Rattle.std.specs.Prelude.{◌≡◌};
ghost use Rattle.command.specs.Command.{numbers_of};
ghost use Rattle.encoding.specs.Named.{named, cp_named, xf_named, indexed_named, bp_named, draw_named, command_by, command_named};
ghost use Rattle.encoding.specs.Told.{indexed_kind, unit_words};

use command::Command;

// 08
fn load_cp(address: u32, number: u32) -> Option<Command>
    ensures { named result ≡ cp_named address number }
{
    let address = u8::try_from(address).ok()?;
    Some(Command::LoadCp { address, number })
}

// 10
fn load_xf(words: u32, address: u32) -> Option<Command>
    ensures { named result ≡ xf_named words address }
{
    let words = u8::try_from(words).ok()?;
    let address = u16::try_from(address).ok()?;
    Some(Command::LoadXf { words, address })
}

// 20, 28, 30, 38
fn load_indexed(array: u8, index: u32, words: u32, address: u32) -> Option<Command>
    ensures { named result ≡ indexed_named array index words address }
{
    let index = u16::try_from(index).ok()?;
    let words = u8::try_from(words).ok()?;
    let address = u16::try_from(address).ok()?;
    Some(Command::LoadIndexed {
        array,
        index,
        words,
        address,
    })
}

// 61
fn load_bp(register: u32, number: u32) -> Option<Command>
    ensures { named result ≡ bp_named register number }
{
    let register = u8::try_from(register).ok()?;
    Some(Command::LoadBp { register, number })
}

// 80
fn draw_head(primitive: u32, format: u32, count: u32) -> Option<Command>
    ensures { named result ≡ draw_named primitive format count }
{
    let primitive = u8::try_from(primitive).ok()?;
    let format = u8::try_from(format).ok()?;
    let count = u16::try_from(count).ok()?;
    Some(Command::DrawHead {
        primitive,
        format,
        count,
    })
}

// By the kind.
#[tactic(auto, unfolding(crate::specs::Named::command_by))]
fn command_by(kind: u32, a: u32, b: u32, c: u32) -> Option<Command>
    ensures { named result ≡ command_by kind a b c }
{
    match kind {
        0x00 => Some(Command::NoOperation),
        0x48 => Some(Command::InvalidateCache),
        0x44 => Some(Command::Metrics),
        0x08 => load_cp(a, b),
        0x10 => load_xf(a, b),
        0x20 => load_indexed(12, a, b, c),
        0x28 => load_indexed(13, a, b, c),
        0x30 => load_indexed(14, a, b, c),
        0x38 => load_indexed(15, a, b, c),
        0x40 => Some(Command::CallList {
            address: a,
            size: b,
        }),
        0x61 => load_bp(a, b),
        0x80 => draw_head(a, b, c),
        _ => None,
    }
}

// The command that five words name. Where they name none a vertex, as `command_named` and the writer's refusal 18 have it.
pub fn command(words: &[u32; 5]) -> Command
    ensures { numbers_of result ≡ command_named words.now }
{
    command_by(words[0], words[1], words[2], words[3]).unwrap_or(Command::Vertex)
}

// The opcode of an indexed load of an array.
fn indexed_kind(array: u8) -> u32
    ensures { result ≡ indexed_kind array }
{
    0x20 + 8 * u32::from(array.saturating_sub(12))
}

// The six words of a unit: those of its command, and its bytes.
pub fn unit_words(command: Command, memory: u32, n: u32) -> [u32; 6]
    ensures { result ≡ unit_words (numbers_of command) memory n }
{
    match command {
        Command::NoOperation => [0x00, 0, 0, 0, 0, n],
        Command::InvalidateCache => [0x48, 0, 0, 0, 0, n],
        Command::Metrics => [0x44, 0, 0, 0, 0, n],
        Command::LoadCp { address, number } => [0x08, address as u32, number, 0, 0, n],
        Command::LoadXf { words, address } => [0x10, words as u32, address as u32, 0, 0, n],
        Command::LoadIndexed {
            array,
            index,
            words,
            address,
        } => [
            indexed_kind(array),
            index as u32,
            words as u32,
            address as u32,
            memory,
            n,
        ],
        Command::CallList { address, size } => [0x40, address, size, 0, 0, n],
        Command::LoadBp { register, number } => [0x61, register as u32, number, 0, 0, n],
        Command::DrawHead {
            primitive,
            format,
            count,
        } => [0x80, primitive as u32, format as u32, count as u32, 0, n],
        Command::Vertex => [0x01, 0, 0, 0, 0, n],
    }
}
