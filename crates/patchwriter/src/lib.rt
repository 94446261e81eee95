// A patch written as loads of the BP registers. A patch is two slices side by side, its masks and its numbers, as the calls in C lend them.
#![tactic(auto)]

ghost use Rattle.std.specs.Prelude.{◌≡◌, ◌+◌, ◌≤◌, ◌<◌, ◌^◌, length};
ghost use Rattle.writer.specs.Write.{placed};
ghost use Rattle.patch.specs.Patch.{patch_of, IsAccepted};
ghost use Rattle.patchwriter.specs.Commands.{patch_bytes};
ghost use Rattle.patchwriter.specs.Answers.{WritesPatch};
ghost use Rattle.patchwriter.specs.Writing.{size_of, Puts};

use command::Command;
use patch::check;
use refusal::Reason;

// How many bytes a patch with these masks is written in: two loads of five for each mask not zero.
fn size(masks: &[u32]) -> usize
    requires { length masks.now ≡ 256 }
    ensures { (result ≡ size_of masks.now) × (result ≤ 2560) }
{
    10 * masks.iter().filter(|&&mask| mask != 0).count()
}

// A load, written into what is left of the output from a place on; gives the place after it.
fn put(out: &mut [u8], at: usize, register: u8, number: u32) -> usize
    requires { (at + 5 ≤ length out.old) × (number < 2 ^ 24) }
    ensures { Puts out.old at register number result out.new }
{
    let load = Command::LoadBp { register, number };
    let written = writer::write(load, &[], &mut out[at..]).unwrap();
    at + written as usize
}

// The loads of an accepted patch, to the front of an output that has room for them: registers ascending, each mask before its number.
// A patch is two slices side by side, its masks and its numbers, as the calls in C lend them.
// By number: r is the register that is loaded.
fn put_all(masks: &[u32], numbers: &[u32], out: &mut [u8])
    requires { IsAccepted (patch_of masks.now numbers.now) × (size_of masks.now ≤ length out.old) }
    ensures { out.new ≡ placed (patch_bytes (patch_of masks.now numbers.now)) out.old }
{
    let mut at = 0;
    for r in 0..256 {
        let mask = masks[r];
        if mask == 0 {
            continue;
        }
        at = put(out, at, 0xFE, mask);
        at = put(out, at, r as u8, numbers[r]);
    }
}

// Writes a patch to the front of the output, or says why not and writes nothing.
#[tactic(auto, unfolding(crate::specs::Answers::write_refusal))]
pub fn write(masks: &[u32], numbers: &[u32], out: &mut [u8]) -> Result<u32, Reason>
    ensures { WritesPatch (patch_of masks.now numbers.now) out.old result out.new }
{
    check(masks, numbers)?;
    let n = size(masks);
    if out.len() < n {
        return Err(Reason::OutputShort);
    }
    put_all(masks, numbers, out);
    Ok(n as u32)
}
