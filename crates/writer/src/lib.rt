// One command as the bytes of its unit.
#![tactic(auto)]

mod heads;

ghost use Rattle.std.specs.Prelude.{◌≡◌, ◌+◌, ◌*◌, ◌≤◌, ◌++◌, length};
ghost use Rattle.command.specs.Command.{numbers_of};
ghost use Rattle.writer.specs.Write.{words_of, word_bytes, placed, Writes};

use command::Command;
use heads::Front;
use refusal::Reason;

// The words that an XF load names; other commands name none.
fn words_named(command: Command) -> usize
    ensures { (result ≡ words_of (numbers_of command)) × (result ≤ 255) }
{
    match command {
        Command::LoadXf { words, .. } => words as usize,
        _ => 0,
    }
}

// The bytes of a head, then words.
fn put(out: &mut [u8], head: &[u8], words: &[u32])
    requires { length head.now + 4 * length words.now ≤ length out.old }
    ensures { out.new ≡ placed (head.now ++ word_bytes words.now) out.old }
{
    let at = head.len();
    out[..at].copy_from_slice(head);
    octets::write_words(words, &mut out[at..]);
}

// Writes one command to the front of the output, an XF load with its lent words, and tells how many bytes it wrote.
#[tactic(auto, unfolding(crate::specs::Write::refusal_of))]
pub fn write(command: Command, words: &[u32], out: &mut [u8]) -> Result<u32, Reason>
    ensures { Writes (numbers_of command) words.now out.old result out.new }
{
    if writable::unwritable(command, words.len()) {
        return Err(Reason::UnwritableCommand);
    }
    if writable::unaddressed(command) {
        return Err(Reason::UnknownCpAddress);
    }
    if writable::past_end(command) {
        return Err(Reason::XfLoadPastEnd);
    }
    // The two parts by themselves: a front that is kept whole is copied once more.
    let Front { bytes, length } = heads::head(command);
    let n = words_named(command);
    let size = length + 4 * n;
    if out.len() < size {
        return Err(Reason::OutputShort);
    }
    put(out, &bytes[..length], &words[..n]);
    Ok(size as u32)
}
