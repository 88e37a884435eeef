// What the programs share that replay the oracle's answers (oracle/README.md): files of records, and the line that is printed for one.
#![tactic(auto)]

mod words;

ghost use Rattle.std.specs.Prelude.{◌≡◌, ◌+◌, ◌<◌, ◌≤◌, [], length, take, drop, vec_len};
ghost use Rattle.replay.specs.Records.{record_count_of, record_of};

use std::fs::{File, Files};
use std::io::{Print, Read};
pub use words::{
    double_bits, f64_at, has, has_f64, has_flag, has_floats, has_size, i32_at, size_at, u64_at,
};

// ---- a file

// More than any file of records has.
pub const MOST: usize = 1048576;

// The bytes of a file, at most so many: none where it is missing, and those that came where a read or an allocation fails.
pub fn read_file<R: Alloc + Files>(rt: &R, file: &str, most: usize) -> Vec<u8, R::A>
    ensures { vec_len result ≤ most }
{
    let mut bytes = Vec::new(rt.alloc());
    if let Ok(opened) = File::open(rt, file) {
        let _ = opened.take(most as u64).read_to_end(&mut bytes);
    }
    // It has no more; std's contracts say so of readers whose bytes are known.
    bytes.truncate(most);
    bytes
}

// So many bytes from a place on, and none where they are not all there.
pub fn part(bytes: &[u8], from: usize, count: usize) -> &[u8]
    ensures there { from + count ≤ length bytes.now → result.now ≡ take count (drop from bytes.now) }
    ensures missing { length bytes.now < from + count → result.now ≡ [] }
{
    let rest = bytes.get(from..).unwrap_or(&[]);
    rest.get(..count).unwrap_or(&[])
}

// ---- its records

// The records in a file's bytes, each a number of words.
#[derive(Clone, Copy)]
pub struct Records<'a> {
    pub bytes: &'a [u8],
    pub words: usize,
}

impl<'a> Records<'a> {
    // How many whole records the bytes hold.
    #[tactic(auto, unfolding(crate::specs::Records::record_count_of))]
    pub fn count(&self) -> usize
        ensures { result ≡ record_count_of (length self.now.bytes.now) self.now.words }
    {
        if self.words == 0 {
            return 0;
        }
        self.bytes.len() / 4 / self.words
    }

    // The record of a number, and no bytes where there is none.
    #[tactic(auto, unfolding(crate::specs::Records::record_of))]
    pub fn get(&self, i: usize) -> &'a [u8]
        ensures { result.now ≡ record_of self.now.bytes.now self.now.words i }
    {
        if i < self.count() {
            let start = 4 * (self.words * i);
            let end = start + 4 * self.words;
            return &self.bytes[start..end];
        }
        &[]
    }

    // Whether the bytes end within a record.
    fn is_short(&self) -> bool {
        self.words == 0 || self.bytes.len() % 4 != 0 || self.bytes.len() / 4 % self.words != 0
    }
}

// Replays a file whose records have a number of words: prints the line of how many agree, by a test of one.
pub fn replay_file<R: Alloc + Files + Print, F: FnMut(&[u8]) -> bool>(
    rt: &R,
    file: &str,
    words: usize,
    mut agrees: F,
)
    requires { F.IsAlwaysCallable agrees }
    ensures { result ≡ tt }
{
    let bytes = read_file(rt, file, MOST);
    let records = Records {
        bytes: &bytes,
        words,
    };
    let mut agreed = 0;
    for i in 0..records.count() {
        if agrees(records.get(i)) {
            agreed += 1;
        }
    }
    print_line(rt, file, &records, agreed);
}

// ---- its line. What is printed is compared with the programs' files `stdout`; the functions yield nothing.

// Prints the line of one file: its name, how many of its records agree and how many it has; also where it is missing, or ends within a record.
fn print_line(rt: &impl Print, file: &str, records: &Records<'_>, agreed: usize)
    ensures { result ≡ tt }
{
    let title = title_of(file);
    if records.bytes.is_empty() {
        let _ = println!(rt; "{title} missing");
        return;
    }
    let count = records.count();
    let short = if records.is_short() { ", short" } else { "" };
    let _ = println!(rt; "{title} {agreed} of {count}{short}");
}

// Prints the line of a file of songs: its name, how many of their pieces agree and how many it has.
pub fn print_songs(rt: &impl Print, file: &str, pieces: usize, agreed: usize)
    ensures { result ≡ tt }
{
    let title = title_of(file);
    let _ = println!(rt; "{title} {agreed} of {pieces}");
}

// A file's name without .bin.
fn title_of(file: &str) -> &str {
    file.strip_suffix(".bin").unwrap_or(file)
}
