// Pieces of a song (oracle/README.md): each is run from the starting value or from the block that the last one left, and must give the Rust's
// samples and block.
use replay::part;

// What a run is lent to read.
#[derive(Clone, Copy)]
pub(crate) struct Lent<'a> {
    pub bundle: &'a [u8],
    pub curves: &'a [u8],
    pub decays: &'a [u8],
}

// A piece: whether it goes on from the last one, its script, how many samples that has, the samples and the block that is left.
#[derive(Clone, Copy)]
struct Piece<'a> {
    goes_on: bool,
    script: &'a [u8],
    sample_count: usize,
    samples: &'a [u8],
    block: &'a [u8],
}

// The piece that bytes start with: whether it goes on, the bytes of its script, its samples; then its script, its samples and the block that is left.
fn piece_of(bytes: &[u8]) -> Piece<'_> {
    let script_bytes = wire::u32_at(bytes, 4) as usize;
    let sample_count = wire::u32_at(bytes, 8) as usize;
    let after_script = 12 + script_bytes;
    Piece {
        goes_on: wire::u32_at(bytes, 0) != 0,
        script: part(bytes, 12, script_bytes),
        sample_count,
        samples: part(bytes, after_script, 16 * sample_count),
        block: part(bytes, after_script + 16 * sample_count, 68),
    }
}

// The bytes after the piece that bytes start with, and none where they end before.
fn after_piece(bytes: &[u8]) -> &[u8] {
    let script_bytes = wire::u32_at(bytes, 4) as usize;
    let sample_bytes = 16 * (wire::u32_at(bytes, 8) as usize);
    bytes.get(80 + script_bytes + sample_bytes..).unwrap_or(&[])
}

// How many pieces the bytes hold.
pub(crate) fn count(bytes: &[u8]) -> usize {
    wire::u32_at(bytes, 0) as usize
}

// Runs a piece, and says whether all its events were done, its samples written and its block left.
fn agrees(piece: Piece<'_>, lent: Lent<'_>, block: &mut [u8; 68]) -> bool {
    if !piece.goes_on {
        *block = [0; 68];
    }
    let mut output = output_room();
    let ended = run::run(
        lent.bundle,
        lent.curves,
        block,
        lent.decays,
        piece.script,
        &mut output,
    );
    ended.answer.is_ok()
        && ended.events == wire::u32_at(piece.script, 0) as usize
        && ended.samples == piece.sample_count
        && output.starts_with(piece.samples)
        && block.as_slice() == piece.block
}

// More than a song's samples take.
fn output_room() -> [u8; 98304] {
    [0; 98304]
}

// How many pieces agree.
pub(crate) fn count_agreeing(bytes: &[u8], lent: Lent<'_>) -> usize {
    let mut block = [0; 68];
    let mut agreed = 0;
    let mut rest = bytes.get(4..).unwrap_or(&[]);
    for i in 0..count(bytes) {
        if agrees(piece_of(rest), lent, &mut block) {
            agreed += 1;
        }
        rest = after_piece(rest);
    }
    agreed
}
