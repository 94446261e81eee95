// The hardware registers, read and written: which register an offset belongs to, then which half.
#![tactic(auto)]

ghost use Rattle.std.specs.Prelude.{◌≡◌, ◌<◌, true, get_or, set};
ghost use Rattle.fifo.specs.Window.{Valid, with_control};
ghost use Rattle.fifo.specs.Answers.{meaning_of_reading, ChangedBy};
ghost use Rattle.registers.specs.Registers.{words, from_words, half_of, with_half, listed, computed};
ghost use Rattle.registers.specs.Registers.{readable, writable, status_of, read_answer, write_answer, stored, written};

use fifo::{Fifo, Window, gap, valid};
use refusal::Reason;

// Even, and one of 000, 002, 004 and 020 to 03A.
#[tactic(auto, unfolding(crate::specs::Registers::listed))]
fn is_listed(offset: u16) -> bool
    ensures { result ≡ listed offset }
{
    (offset % 2 == 0) & matches!(offset, 0..=4 | 0x20..=0x3A)
}

// Status and count: 000, 030 and 032.
#[tactic(auto, unfolding(crate::specs::Registers::computed))]
fn is_computed(offset: u16) -> bool
    ensures { result ≡ computed offset }
{
    matches!(offset, 0 | 0x30 | 0x32)
}

#[tactic(auto, unfolding(crate::specs::Registers::readable))]
fn is_readable(offset: u16) -> bool
    ensures { result ≡ readable offset }
{
    is_listed(offset) & (offset != 4)
}

#[tactic(auto, unfolding(crate::specs::Registers::writable))]
fn is_writable(offset: u16) -> bool
    ensures { result ≡ writable offset }
{
    is_listed(offset) & !is_computed(offset)
}

// The word at a place from 020 on, the count among them. By number: a place is counted from the hardware's offset.
#[tactic(auto, using(fifo::proofs::WindowLaws::gap_count))]
fn word(window: Window, place: u16) -> u32
    requires { (place < 7) × (place ≡ 4 → Valid window) }
    ensures { result ≡ get_or (words window) place 0 }
{
    match place {
        0 => window.start,
        1 => window.end,
        2 => window.high,
        3 => window.low,
        4 => gap(window),
        5 => window.write,
        _ => window.read,
    }
}

// The window with another word at a place from 020 on.
fn with_word(window: Window, place: u16, word: u32) -> Window
    requires { (place < 7) × (place ≡ 4 → ⊥) }
    ensures { result ≡ from_words (set (words window) place word) }
{
    match place {
        0 => Window {
            start: word,
            ..window
        },
        1 => Window {
            end: word,
            ..window
        },
        2 => Window {
            high: word,
            ..window
        },
        3 => Window {
            low: word,
            ..window
        },
        5 => Window {
            write: word,
            ..window
        },
        _ => Window {
            read: word,
            ..window
        },
    }
}

// The high or the low half of a word.
// By division: std has the bytes of a word and no halves. `high` is computed from the offset, so two functions would only move this test.
#[tactic(auto, unfolding(crate::specs::Registers::half_of))]
fn half(high: bool, word: u32) -> u16
    ensures { result ≡ half_of high word }
{
    if high {
        (word / 0x10000) as u16
    } else {
        (word % 0x10000) as u16
    }
}

// The word with its high or its low half replaced.
#[tactic(auto, unfolding(crate::specs::Registers::with_half))]
fn with_half(high: bool, word: u32, value: u16) -> u32
    ensures { result ≡ with_half high word value }
{
    if high {
        u32::from(value) * 0x10000 + word % 0x10000
    } else {
        word / 0x10000 * 0x10000 + u32::from(value)
    }
}

// Bit 2 exactly if the pointers are equal, bit 3 exactly if no draw is open.
#[tactic(auto, unfolding(crate::specs::Registers::status_of))]
fn status(window: Window, drawing: bool) -> u16
    ensures { result ≡ status_of window drawing }
{
    4 * u16::from(window.read == window.write) + 8 * u16::from(!drawing)
}

// Reads the sixteen-bit register at an offset; `drawing` says whether a draw is open.
#[tactic(auto, unfolding(crate::specs::Registers::read_answer, crate::specs::Registers::value_of))]
pub fn read_register(fifo: Fifo, drawing: bool, offset: u16) -> Result<u16, Reason>
    ensures { meaning_of_reading result ≡ read_answer fifo drawing offset }
{
    let window = fifo.window;
    if !is_readable(offset) {
        return Err(Reason::UnknownOffset);
    }
    if is_computed(offset) & !valid(window) {
        return Err(Reason::InvalidState);
    }
    if offset == 0 {
        return Ok(status(window, drawing));
    }
    if offset < 0x20 {
        return Ok(fifo.control);
    }
    Ok(half(offset / 2 % 2 == 1, word(window, (offset - 0x20) / 4)))
}

// Stores the value of a writable register. "Each half takes effect at once."
#[tactic(auto, unfolding(crate::specs::Registers::stored, crate::specs::Registers::with_register))]
fn store(fifo: &mut Fifo, offset: u16, value: u16)
    requires { writable offset ≡ true }
    ensures { fifo.new ≡ stored fifo.old offset value }
{
    if offset == 4 {
        return;
    }
    if offset < 0x20 {
        fifo.control = value % 64;
        return;
    }
    let place = (offset - 0x20) / 4;
    let word = with_half(offset / 2 % 2 == 1, word(fifo.window, place), value);
    fifo.window = with_word(fifo.window, place, word);
}

// Writes the sixteen-bit register at an offset.
#[tactic(auto, unfolding(crate::specs::Registers::write_answer, crate::specs::Registers::written))]
pub fn write_register(fifo: &mut Fifo, offset: u16, value: u16) -> Result<(), Reason>
    ensures { ChangedBy result fifo.new (write_answer offset) (written fifo.old offset value) }
{
    if !is_writable(offset) {
        return Err(Reason::UnknownOffset);
    }
    store(fifo, offset, value);
    Ok(())
}
