// Files, whole.
ghost use Rattle.std.specs.Prelude.{◌≡◌, ◌≤◌, IfOk, vec_len};
ghost use Rattle.control.specs.Registers.{starting_state};
ghost use Rattle.control.specs.Block.{block_of};

use crate::{Stop, line_room};
use control::State;
use std::fs::File;
use std::io;
use std::io::{Error, ErrorKind, Print, Read, Write};

// The bytes of a file, at most so many. Where it cannot be read, it says why.
pub(crate) fn load(rt: &HostRuntime, path: &[u8], most: usize) -> Result<Vec<u8>, Stop> {
    read(rt, path, most).map_err(|why| unread(rt, path, why))
}

// The state's file, or the starting value's block where there is none.
pub(crate) fn load_state(rt: &HostRuntime, path: &[u8]) -> Result<Vec<u8>, Stop> {
    match read(rt, path, STATE_MOST) {
        Ok(block) => Ok(block),
        Err(why) if why.kind() == ErrorKind::NotFound => copied(rt, path, &start()),
        Err(why) => Err(unread(rt, path, why)),
    }
}

// One byte more than a state has, so that a longer file is refused by its length.
const STATE_MOST: usize = State::BYTES + 1;

// The block of the starting value.
fn start() -> [u8; 68]
    ensures { result ≡ block_of starting_state }
{
    let mut block = [0; 68];
    State::new().encode(&mut block);
    block
}

// A copy of bytes that are of a file, or are its name.
pub(crate) fn copied(rt: &HostRuntime, path: &[u8], bytes: &[u8]) -> Result<Vec<u8>, Stop> {
    Vec::from_slice(rt.alloc(), bytes).map_err(|why| unread(rt, path, Error::from(why)))
}

// The bytes of a file, at most so many. The room is made at once, with the one byte more for which `read_to_end` would make more of it.
fn read(rt: &HostRuntime, path: &[u8], most: usize) -> io::Result<Vec<u8>>
    ensures { IfOk result (λ bytes. vec_len bytes ≤ most) }
{
    let file = File::open(rt, name(path)?)?;
    let mut bytes = Vec::with_capacity(rt.alloc(), most.saturating_add(1))?;
    file.take(most as u64).read_to_end(&mut bytes)?;
    // It has no more; std's contracts say so of readers whose bytes are known.
    bytes.truncate(most);
    Ok(bytes)
}

// A path as std takes it: text.
fn name(path: &[u8]) -> io::Result<&str> {
    str::from_utf8(path).map_err(|_| Error::from(ErrorKind::InvalidFilename))
}

// Puts bytes in the place of a file's: they are written beside it and then take its name, so that it never holds a part of them. Where that fails, it says so.
pub(crate) fn save(rt: &HostRuntime, path: &[u8], bytes: &[u8]) -> Result<(), Stop> {
    let mut room = line_room();
    let n = bounce_lines::beside(&mut room, path);
    let beside = &room[..n];
    write(rt, beside, bytes).map_err(|why| unwritten(rt, beside, why))?;
    rename(rt, beside, path).map_err(|why| unwritten(rt, path, why))
}

fn write(rt: &HostRuntime, path: &[u8], bytes: &[u8]) -> io::Result<()> {
    let mut file = create(rt, path)?;
    file.write_all(bytes)?;
    settle(&file)
}

fn rename(rt: &HostRuntime, from: &[u8], to: &[u8]) -> io::Result<()> {
    std::fs::rename(rt, name(from)?, name(to)?)
}

// Empties a file, or makes it.
pub(crate) fn create(rt: &HostRuntime, path: &[u8]) -> io::Result<File> {
    File::create(rt, name(path)?)
}

// Sees to it that what was written has come to the file, since a failure may show only then. A pipe or a device has no such call, which is
// no failure.
pub(crate) fn settle(file: &File) -> io::Result<()> {
    match file.sync_data() {
        Err(why) if why.kind() == ErrorKind::InvalidInput => Ok(()),
        outcome => outcome,
    }
}

// The stop of a file that cannot be read, and of one that cannot be written. Each says on standard error what failed, and why.
pub(crate) fn unread(rt: &HostRuntime, what: &[u8], why: Error) -> Stop {
    tell(rt, what, why);
    Stop::Unread
}

pub(crate) fn unwritten(rt: &HostRuntime, what: &[u8], why: Error) -> Stop {
    tell(rt, what, why);
    Stop::Unwritten
}

fn tell(rt: &HostRuntime, what: &[u8], why: Error) {
    let out = rt.stderr();
    let _ = Print::write_all(&out, what);
    let _ = out.print(": ");
    match format!(in rt.alloc(); "{why}") {
        Ok(text) => {
            let _ = out.println(reason(text.as_str()));
        }
        Err(_) => {
            let _ = out.println(why);
        }
    }
}

// The system's words for an error, after which std writes the error's number.
fn reason(text: &str) -> &str {
    text.split_once(" (os error ")
        .map_or(text, |(words, _)| words)
}
