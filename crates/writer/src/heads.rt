// The bytes of a command before an XF load's words: at most nine.
ghost use Rattle.std.specs.Prelude.{◌≡◌, [], ◌∷◌, take};
ghost use Rattle.command.specs.Command.{numbers_of, load_cp, load_xf, load_indexed, call_list, load_bp, draw_head};
ghost use Rattle.writer.specs.Heads.{Begins};

use command::Command;

// A buffer of its own, since a head stands somewhere before the room for it is known, and there is no heap. Its nine bytes are written out
// at once, with zeros behind: where they are copied into zeros first, a writing takes a third longer, since what was just stored in parts
// is then loaded whole.
#[derive(Clone, Copy)]
pub struct Front {
    pub bytes: [u8; 9],
    pub length: usize,
}

// 08.
fn head_cp(address: u8, number: u32) -> Front
    ensures { Begins (load_cp address number) result }
{
    let [a, b, c, d] = number.to_be_bytes();
    Front {
        bytes: [0x08, address, a, b, c, d, 0, 0, 0],
        length: 6,
    }
}

// 10; the length is the words less one.
fn head_xf(words: u8, address: u16) -> Front
    ensures { Begins (load_xf words address) result }
{
    let length = (words as u16 + 15) % 16;
    let [a, b] = length.to_be_bytes();
    let [c, d] = address.to_be_bytes();
    Front {
        bytes: [0x10, a, b, c, d, 0, 0, 0, 0],
        length: 5,
    }
}

// 20, 28, 30, 38, by the array.
fn head_indexed(array: u8, index: u16, words: u8, address: u16) -> Front
    ensures { Begins (load_indexed array index words address) result }
{
    let rest = (words as u16 + 15) % 16 * 4096 + address % 4096;
    let [a, b] = index.to_be_bytes();
    let [c, d] = rest.to_be_bytes();
    Front {
        bytes: [0x20 + 8 * (array % 4), a, b, c, d, 0, 0, 0, 0],
        length: 5,
    }
}

// 40.
fn head_call(address: u32, size: u32) -> Front
    ensures { Begins (call_list address size) result }
{
    let [a, b, c, d] = address.to_be_bytes();
    let [e, f, g, h] = size.to_be_bytes();
    Front {
        bytes: [0x40, a, b, c, d, e, f, g, h],
        length: 9,
    }
}

// 61; the number's lowest three bytes.
fn head_bp(register: u8, number: u32) -> Front
    ensures { Begins (load_bp register number) result }
{
    let [_, a, b, c] = number.to_be_bytes();
    Front {
        bytes: [0x61, register, a, b, c, 0, 0, 0, 0],
        length: 5,
    }
}

// 80 to BF.
fn head_draw(primitive: u8, format: u8, count: u16) -> Front
    ensures { Begins (draw_head primitive format count) result }
{
    let [a, b] = count.to_be_bytes();
    Front {
        bytes: [
            0x80 + 8 * (primitive % 8) + format % 8,
            a,
            b,
            0,
            0,
            0,
            0,
            0,
            0,
        ],
        length: 3,
    }
}

// 00, 48, 44.
fn head_plain(op: u8) -> Front
    ensures { (take 1 result.bytes ≡ op ∷ []) × (result.length ≡ 1) }
{
    Front {
        bytes: [op, 0, 0, 0, 0, 0, 0, 0, 0],
        length: 1,
    }
}

// The head of a command; a vertex has none.
// A match: the cases carry other fields, which no closure or table of functions could take alike.
pub fn head(command: Command) -> Front
    ensures { Begins (numbers_of command) result }
{
    match command {
        Command::NoOperation => head_plain(0x00),
        Command::InvalidateCache => head_plain(0x48),
        Command::Metrics => head_plain(0x44),
        Command::LoadCp { address, number } => head_cp(address, number),
        Command::LoadXf { words, address } => head_xf(words, address),
        Command::LoadIndexed {
            array,
            index,
            words,
            address,
        } => head_indexed(array, index, words, address),
        Command::CallList { address, size } => head_call(address, size),
        Command::LoadBp { register, number } => head_bp(register, number),
        Command::DrawHead {
            primitive,
            format,
            count,
        } => head_draw(primitive, format, count),
        Command::Vertex => Front {
            bytes: [0; 9],
            length: 0,
        },
    }
}
