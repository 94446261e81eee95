// The library's calls on numbers and slices under their names in C, for `duckhammock_c`, which exports them to C and Rust.
// `include/duckhammock.h` says them in C's words; the crates `access`, `stepping`, `runner`, `formats`, `patching` and `filing` do them.
//
// The state is 327 words that the caller keeps (`words`, specs/State.antt). The number returned is 0 where the call was accepted, a unit
// is told or was done or the limit was reached, 255 for waiting, and else the refusal's number. A refused or waiting call changes nothing
// that it was lent, but that waiting tells how many bytes are lacking; a run keeps the units before the one that was refused or waits, and
// its report is told whatever the answer. `duckhammock_find_recording_fault` refuses nothing, and returns a place in a file.
#![tactic(auto)]

ghost use Rattle.std.specs.Prelude.{◌≡◌};
ghost use Rattle.patch.specs.Patch.{patch_of, fault_of};
ghost use Rattle.running.specs.Run.{run_of};
ghost use Rattle.words.specs.State.{state_at, fresh_words};
ghost use Rattle.encoding.specs.Named.{command_named, format_named};
ghost use Rattle.access.specs.Calls.{ReadsRegister, WritesRegister, Feeds};
ghost use Rattle.stepping.specs.Calls.{lent_of, Looks, TakesOne, Ends};
ghost use Rattle.formats.specs.Formats.{LaysOut, TellsAttribute, TellsAll, KeepsBits};
ghost use Rattle.patching.specs.Writing.{PutsCommand, PutsPatch, MergesInto};
ghost use Rattle.recording.specs.Faults.{stream_limit, head_place, rest_fault};
ghost use Rattle.filing.specs.Calls.{LoadsFile, LoadsHead, PutsFile, PutsHead};

// The fresh state.
pub fn duckhammock_fresh(state: &mut [u32; 327])
    ensures { state.new ≡ fresh_words }
{
    access::fresh(state);
}

// Reads a hardware register; the control register as its word stands.
pub fn duckhammock_read_register(state: &[u32; 327], offset: u16, value: &mut u32) -> u32
    ensures { ReadsRegister state.now offset value.old result value.new }
{
    access::read_register(state, offset, value)
}

// Writes a hardware register.
pub fn duckhammock_write_register(state: &mut [u32; 327], offset: u16, value: u16) -> u32
    ensures { WritesRegister state.old offset value result state.new }
{
    access::write_register(state, offset, value)
}

// Feeds bytes to the ring.
pub fn duckhammock_feed(state: &mut [u32; 327], ring: &mut [u8], bytes: &[u8]) -> u32
    ensures { Feeds state.old ring.old bytes.now result state.new ring.new }
{
    access::feed(state, ring, bytes)
}

// Tells the next unit and changes nothing else: its command's five words and how many bytes it has; where it waits, how many are lacking.
pub fn duckhammock_look(
    state: &[u32; 327],
    ring: &[u8],
    xf: &[u32],
    vertex: &[u8],
    unit: &mut [u32; 6],
    lacking: &mut u32,
) -> u32
    ensures { Looks ring.now (state_at state.now xf.now vertex.now)
        unit.old lacking.old result unit.new lacking.new }
{
    stepping::look(state, ring, xf, vertex, unit, lacking)
}

// Takes the next unit, and tells what a look at it tells.
pub fn duckhammock_take(
    state: &mut [u32; 327],
    ring: &[u8],
    xf: &mut [u32],
    vertex: &mut [u8],
    unit: &mut [u32; 6],
    lacking: &mut u32,
) -> u32
    ensures { TakesOne ring.now (state_at state.old xf.old vertex.old)
        (lent_of state.old xf.old vertex.old) unit.old
        lacking.old result (lent_of state.new xf.new vertex.new)
        unit.new lacking.new }
{
    stepping::take(state, ring, xf, vertex, unit, lacking)
}

// Takes units until the limit, waiting or a refusal. Its report: the units done, and the bytes lacking, 0 unless it waits.
pub fn duckhammock_run(
    state: &mut [u32; 327],
    ring: &[u8],
    xf: &mut [u32],
    vertex: &mut [u8],
    limit: u32,
    report: &mut [u32; 2],
) -> u32
    ensures { Ends (run_of ring.now limit (state_at state.old xf.old vertex.old))
        (lent_of state.old xf.old vertex.old)
        result (lent_of state.new xf.new vertex.new) report.new }
{
    runner::run(state, ring, xf, vertex, limit, report)
}

// The layout of a vertex: each attribute's bytes, the sum of those before it, and the length.
pub fn duckhammock_lay_out(
    format: &[u32; 5],
    sizes: &mut [u8; 21],
    offsets: &mut [u8; 21],
    length: &mut u32,
) -> u32
    ensures { LaysOut (format_named format.now) sizes.old offsets.old length.old
        result sizes.new offsets.new length.new }
{
    formats::lay_out(format, sizes, offsets, length)
}

// One attribute of a vertex: its kind and nine values, zeros where unused.
pub fn duckhammock_decode(
    format: &[u32; 5],
    attribute: u32,
    vertex: &[u8],
    values: &mut [u32; 10],
) -> u32
    ensures { TellsAttribute (format_named format.now) attribute vertex.now values.old
        result values.new }
{
    formats::decode(format, attribute, vertex, values)
}

// All attributes of a vertex: ten words each, the kind and nine values, zeros where unused.
pub fn duckhammock_decode_all(format: &[u32; 5], vertex: &[u8], values: &mut [u32; 210]) -> u32
    ensures { TellsAll (format_named format.now) vertex.now values.old result values.new }
{
    formats::decode_all(format, vertex, values)
}

// The f32 components of an attribute as they stand: how many there are, and nine words, zeros where unused.
pub fn duckhammock_raw_words(
    format: &[u32; 5],
    attribute: u32,
    vertex: &[u8],
    values: &mut [u32; 10],
) -> u32
    ensures { KeepsBits (format_named format.now) attribute vertex.now values.old
        result values.new }
{
    formats::raw_words(format, attribute, vertex, values)
}

// Writes the command that five words name, an XF load with its lent words, and tells its bytes.
pub fn duckhammock_write_command(
    command: &[u32; 5],
    lent: &[u32],
    output: &mut [u8],
    written: &mut u32,
) -> u32
    ensures { PutsCommand (command_named command.now) lent.now output.old written.old
        result output.new written.new }
{
    patching::write_command(command, lent, output, written)
}

// Whether a patch is accepted.
pub fn duckhammock_check_patch(masks: &[u32], numbers: &[u32]) -> u32
    ensures { result ≡ fault_of (patch_of masks.now numbers.now) }
{
    patching::check(masks, numbers)
}

// Merges the patches A and B into the lent pair: the bits that either names, B's where both do.
pub fn duckhammock_merge_patches(
    a_masks: &[u32],
    a_numbers: &[u32],
    b_masks: &[u32],
    b_numbers: &[u32],
    masks: &mut [u32],
    numbers: &mut [u32],
) -> u32
    ensures { MergesInto (patch_of a_masks.now a_numbers.now)
        (patch_of b_masks.now b_numbers.now)
        (patch_of masks.old numbers.old) result (patch_of masks.new numbers.new) }
{
    patching::merge(a_masks, a_numbers, b_masks, b_numbers, masks, numbers)
}

// Writes a patch as commands, and tells its bytes.
pub fn duckhammock_write_patch(
    masks: &[u32],
    numbers: &[u32],
    output: &mut [u8],
    written: &mut u32,
) -> u32
    ensures { PutsPatch (patch_of masks.now numbers.now) output.old written.old
        result output.new written.new }
{
    patching::write(masks, numbers, output, written)
}

// Reads a recording: the registers, with no draw open, the XF words, where the stream stands and how long it is.
pub fn duckhammock_read_recording(
    state: &mut [u32; 327],
    file: &[u8],
    xf: &mut [u32],
    stream: &mut [u32; 2],
) -> u32
    ensures { LoadsFile stream_limit state.old file.now xf.old stream.old
        result state.new xf.new stream.new }
{
    filing::read(state, file, xf, stream)
}

// Reads the first 18,016 bytes of a recording so, and tells how long its stream is.
pub fn duckhammock_read_recording_head(
    state: &mut [u32; 327],
    head: &[u8],
    xf: &mut [u32],
    length: &mut u32,
) -> u32
    ensures { LoadsHead stream_limit state.old head.now xf.old length.old
        result state.new xf.new length.new }
{
    filing::read_head(state, head, xf, length)
}

// Whether so many bytes behind the head of a recording are the stream that it tells.
pub fn duckhammock_check_recording_rest(length: u32, rest: usize) -> u32
    ensures { result ≡ rest_fault length rest }
{
    filing::check_rest(length, rest)
}

// The byte of the first fault of a recording's head, 18,016 where it has none.
pub fn duckhammock_find_recording_fault(head: &[u8]) -> u32
    ensures { result ≡ head_place stream_limit head.now }
{
    filing::find_fault(head)
}

// Writes a recording of the state's registers, the XF words and a stream, and tells its bytes.
pub fn duckhammock_write_recording(
    state: &[u32; 327],
    xf: &[u32],
    stream: &[u8],
    output: &mut [u8],
    written: &mut u32,
) -> u32
    ensures { PutsFile stream_limit state.now xf.now stream.now output.old
        written.old result output.new written.new }
{
    filing::write(state, xf, stream, output, written)
}

// Writes what stands in a recording before a stream of so many bytes, and tells its bytes.
pub fn duckhammock_write_recording_head(
    state: &[u32; 327],
    xf: &[u32],
    length: usize,
    output: &mut [u8],
    written: &mut u32,
) -> u32
    ensures { PutsHead stream_limit state.now xf.now length output.old written.old
        result output.new written.new }
{
    filing::write_head(state, xf, length, output, written)
}
