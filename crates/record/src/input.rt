// The inputs: how one is read, and how one that is open is opened once more. Linux tells of a descriptor in a file of its own, and a path
// leads to what is open on it.
use crate::failure::Failure;
use crate::pass::Again;
use std::alloc::Global;
use std::fs;
use std::io::{Cursor, Read, Seek, SeekFrom};
use std::os::unix::fs::FileTypeExt;
use std::rt::Files;

// Where standard input is open, and where Linux tells how far it was read.
const STDIN: &str = "/proc/self/fd/0";

const STDIN_TOLD: &str = "/proc/self/fdinfo/0";

// The same of the recording whose registers are taken.
const OTHER: &str = "/proc/self/fd/3";

const OTHER_TOLD: &str = "/proc/self/fdinfo/3";

// The first pass over an input that has no places: at most `most` bytes are held in memory, for the second pass. They are counted, where no
// read failed.
pub fn hold(
    alloc: Global,
    input: &mut impl Read,
    most: usize,
) -> (Again<Cursor<Vec<u8>>>, Result<usize, Failure>) {
    let mut bytes = Vec::new(alloc);
    let read = input.by_ref().take(most as u64).read_to_end(&mut bytes);
    let count = read.map_err(|_| Failure::Unreadable);
    (Again::new(Cursor::new(bytes)), count)
}

// How far an input was read by those who had it open before; none where it is not open.
fn place(rt: &(impl Files + Alloc), told: &str) -> Option<u64> {
    let told = fs::read_to_string(rt, told).ok()?;
    let (first, _) = told.as_str().split_once('\n')?;
    let number = first.strip_prefix("pos:\t")?;
    number.parse::<u64>().ok()
}

// Whether the other recording is a pipe that has a name. To open that once more might be to wait for one who writes.
fn is_named_pipe(rt: &(impl Files + Alloc)) -> bool {
    let Ok(told) = fs::metadata(rt, OTHER) else {
        return false;
    };
    if !told.file_type().is_fifo() {
        return false;
    }
    match fs::read_link(rt, OTHER) {
        Ok(name) => !name.as_path().as_str().starts_with("pipe:"),
        Err(_) => true,
    }
}

// Opens the other recording once more, where it stands. A pipe has no places, and goes on by itself.
pub fn open_other<R: Files + Alloc>(rt: &R) -> Option<R::File> {
    let start = place(rt, OTHER_TOLD)?;
    if is_named_pipe(rt) {
        return None;
    }
    let mut file = fs::open(rt, OTHER).ok()?;
    let _ = file.seek(SeekFrom::Start(start));
    Some(file)
}

// Opens standard input once more, where it stands, for the second pass; none where it is not a file, or may not be opened. The first pass
// reads standard input itself, which the other opening does not move.
pub fn open_stdin<R: Files + Alloc>(rt: &R) -> Option<Again<R::File>> {
    if !fs::metadata(rt, STDIN).ok()?.is_file() {
        return None;
    }
    let start = place(rt, STDIN_TOLD)?;
    let mut file = fs::open(rt, STDIN).ok()?;
    file.seek(SeekFrom::Start(start)).ok()?;
    Some(Again::new(file))
}
