// Two patches merged into one. A patch is two slices side by side, its masks and its numbers, as the calls in C lend them.
#![tactic(auto)]

ghost use Rattle.std.specs.Prelude.{◌≡◌};
ghost use Rattle.patch.specs.Patch.{patch_of, is_sized};
ghost use Rattle.merging.specs.Merging.{AllSized, Merges, MergesAll};

use patch::check;
use refusal::Reason;

// Whether there are 256 masks and 256 numbers.
fn is_sized(masks: &[u32], numbers: &[u32]) -> bool
    ensures { result ≡ is_sized (patch_of masks.now numbers.now) }
{
    masks.len() == 256 && numbers.len() == 256
}

// Register by register: the bits that either names, B's where B names them.
// By index: of slices written through `iter_mut` a proof knows the length alone.
fn merge_all(
    a_masks: &[u32],
    a_numbers: &[u32],
    b_masks: &[u32],
    b_numbers: &[u32],
    masks: &mut [u32],
    numbers: &mut [u32],
)
    requires { AllSized (patch_of a_masks.now a_numbers.now) (patch_of b_masks.now b_numbers.now)
        (patch_of masks.old numbers.old) }
    ensures { MergesAll (patch_of a_masks.now a_numbers.now)
        (patch_of b_masks.now b_numbers.now)
        masks.new numbers.new }
{
    for r in 0..256 {
        masks[r] = a_masks[r] | b_masks[r];
        numbers[r] = effect::replace_bits(a_numbers[r], b_masks[r], b_numbers[r]);
    }
}

// Merges patch B into patch A, into the lent pair; or says why not and leaves that as it was.
#[tactic(auto, unfolding(crate::specs::Merging::merge_refusal))]
pub fn merge(
    a_masks: &[u32],
    a_numbers: &[u32],
    b_masks: &[u32],
    b_numbers: &[u32],
    masks: &mut [u32],
    numbers: &mut [u32],
) -> Result<(), Reason>
    ensures { Merges (patch_of a_masks.now a_numbers.now)
        (patch_of b_masks.now b_numbers.now)
        (patch_of masks.old numbers.old) result (patch_of masks.new numbers.new) }
{
    if !is_sized(a_masks, a_numbers) || !is_sized(b_masks, b_numbers) || !is_sized(masks, numbers) {
        return Err(Reason::PatchLength);
    }
    check(a_masks, a_numbers)?;
    check(b_masks, b_numbers)?;
    merge_all(a_masks, a_numbers, b_masks, b_numbers, masks, numbers);
    Ok(())
}
