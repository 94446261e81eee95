// Patches of the BP registers (document 01's correction sheets): checked. A patch is two slices side by side, its masks and its numbers, as
// the calls in C lend them.
#![tactic(auto)]

ghost use Rattle.std.specs.Prelude.{◌≡◌};
ghost use Rattle.patch.specs.Patch.{patch_of, fault_at, fault_of};
ghost use Rattle.patch.specs.Answers.{meaning};

use refusal::Reason;

// The first fault of a register with its mask and number.
#[tactic(auto, unfolding(crate::specs::Patch::fault_at))]
fn test(r: usize, mask: u32, number: u32) -> Result<(), Reason>
    ensures { meaning result ≡ fault_at r mask number }
{
    if r == 0xFE && (mask != 0 || number != 0) {
        return Err(Reason::PatchOfMaskRegister);
    }
    if 0xFF_FFFF < mask {
        return Err(Reason::PatchMaskTooWide);
    }
    if number & mask != number {
        return Err(Reason::PatchNumberOutsideMask);
    }
    Ok(())
}

// Searches a patch by register, ascending; the search ends at the first fault.
// A patch is two slices side by side, its masks and its numbers, as the calls in C lend them.
#[tactic(auto, unfolding(crate::specs::Patch::fault_of))]
pub fn check(masks: &[u32], numbers: &[u32]) -> Result<(), Reason>
    ensures { meaning result ≡ fault_of (patch_of masks.now numbers.now) }
{
    if masks.len() != 256 || numbers.len() != 256 {
        return Err(Reason::PatchLength);
    }
    // A loop that yields the first fault by break, the form asked for this search: a `for` yields nothing, so its index is counted here.
    let mut r: usize = 0;
    loop {
        if r == 256 {
            break Ok(());
        }
        if let Err(reason) = test(r, masks[r], numbers[r]) {
            break Err(reason);
        }
        r += 1;
    }
}
