// The names of the files, which are the program's arguments. std's `Env` fills a lent buffer with one, and answers its length.
use crate::{Stop, files, line_room};
use std::env::{Env, FillError};
use std::io::{Error, Print};

// C's numbers for an argument that is missing, and for one that is longer than the buffer.
const EINVAL: i32 = 22;

const ENAMETOOLONG: i32 = 36;

// How many arguments the program was started with, its own name among them.
pub(crate) fn arg_count(rt: &HostRuntime) -> usize {
    for i in 0..usize::MAX {
        if let Err(FillError::NotPresent) = rt.arg(i, &mut []) {
            return i;
        }
    }
    usize::MAX
}

// An argument. Where it is not there, it says why.
pub(crate) fn name(rt: &HostRuntime, i: usize, what: &[u8]) -> Result<Vec<u8>, Stop> {
    let mut path = io::buffer();
    match rt.arg(i, &mut path) {
        Ok(n) => files::copied(rt, what, &path[..n]),
        Err(FillError::NotPresent) => Err(missing(rt, what, EINVAL)),
        Err(FillError::TooLong) => Err(missing(rt, what, ENAMETOOLONG)),
    }
}

fn missing(rt: &HostRuntime, what: &[u8], code: i32) -> Stop {
    files::unread(rt, what, Error::from_raw_os_error(code))
}

// Stops where OUTPUT, STATE or STATE.new has another argument's name. One that is missing, or longer than the buffer, is taken for an empty one.
pub(crate) fn judge_apart(rt: &HostRuntime) -> Result<(), Stop> {
    judge_argument(rt, 4)?;
    judge_argument(rt, 3)?;
    judge_beside(rt)
}

fn judge_argument(rt: &HostRuntime, own: usize) -> Result<(), Stop> {
    let mut path = io::buffer();
    let n = rt.arg(own, &mut path).unwrap_or(0);
    judge_name(rt, &path[..n], own)
}

// The name STATE.new, which is no argument's own.
fn judge_beside(rt: &HostRuntime) -> Result<(), Stop> {
    let mut state = io::buffer();
    let n = rt.arg(3, &mut state).unwrap_or(0);
    let mut beside = line_room();
    let m = bounce_lines::beside(&mut beside, &state[..n]);
    judge_name(rt, &beside[..m], 0)
}

// Stops where an argument other than its own has a name, and says so.
fn judge_name(rt: &HostRuntime, name: &[u8], own: usize) -> Result<(), Stop> {
    for i in 1..arg_count(rt) {
        if i != own && has_name(rt, i, name) {
            let _ = rt.write_all(name);
            let _ = rt.print(": is written, so no other file may have this name\n");
            return Err(Stop::Unread);
        }
    }
    Ok(())
}

// Whether an argument is this name.
fn has_name(rt: &HostRuntime, i: usize, name: &[u8]) -> bool {
    let mut path = io::buffer();
    let n = rt.arg(i, &mut path).unwrap_or(0);
    bounce_lines::same_name(&path[..n], name)
}
