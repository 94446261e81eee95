// Commands written, and patches (document 01's correction sheets) checked, merged and written.
// Answers are the C interface's numbers, 0 or the refusal's, and a patch is its masks and its numbers, two slices, as C lends them.
#![tactic(auto)]

ghost use Rattle.std.specs.Prelude.{◌≡◌};
ghost use Rattle.patch.specs.Patch.{patch_of, fault_of};
ghost use Rattle.encoding.specs.Named.{command_named};
ghost use Rattle.patching.specs.Writing.{PutsCommand, PutsPatch, MergesInto};

// Writes the command that five words name, an XF load with its lent words, and tells its bytes.
pub fn write_command(command: &[u32; 5], lent: &[u32], output: &mut [u8], written: &mut u32) -> u32
    ensures { PutsCommand (command_named command.now) lent.now output.old written.old
        result output.new written.new }
{
    let answer = writer::write(encoding::command(command), lent, output);
    answers::tell_bytes(answer, written)
}

// Whether a patch is accepted.
pub fn check(masks: &[u32], numbers: &[u32]) -> u32
    ensures { result ≡ fault_of (patch_of masks.now numbers.now) }
{
    encoding::answer_number(patch::check(masks, numbers))
}

// Merges the patches A and B into the lent pair: the bits that either names, B's where both do.
pub fn merge(
    a_masks: &[u32],
    a_numbers: &[u32],
    b_masks: &[u32],
    b_numbers: &[u32],
    masks: &mut [u32],
    numbers: &mut [u32],
) -> u32
    ensures { MergesInto (patch_of a_masks.now a_numbers.now)
        (patch_of b_masks.now b_numbers.now)
        (patch_of masks.old numbers.old) result (patch_of masks.new numbers.new) }
{
    let merged = merging::merge(a_masks, a_numbers, b_masks, b_numbers, masks, numbers);
    encoding::answer_number(merged)
}

// Writes a patch as commands, and tells its bytes.
pub fn write(masks: &[u32], numbers: &[u32], output: &mut [u8], written: &mut u32) -> u32
    ensures { PutsPatch (patch_of masks.now numbers.now) output.old written.old
        result output.new written.new }
{
    answers::tell_bytes(patchwriter::write(masks, numbers, output), written)
}
