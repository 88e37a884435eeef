// Records of what a state is charged with: mode writes, and blocks without charges that are widened.
use control::State;
use replay::{has_flag, part};

// A state's block and the value of a mode write, then the block after it and whether both volume charges are finite there.
pub(crate) fn charge(r: &[u8]) -> bool {
    let Some(state) = State::decode(part(r, 0, 68)) else {
        return false;
    };
    let value = wire::byte_at(r, 68);
    has_charged(r, state.write_mode_and_volume(value))
}

fn has_charged(r: &[u8], after: State) -> bool {
    let transients = after.transients;
    let mut block = [0; 68];
    after.encode(&mut block);
    block.as_slice() == part(r, 72, 68) && has_flag(r, 140, transients.finite_charges())
}

// A block without charges, and the block that it is widened to.
pub(crate) fn widening(r: &[u8]) -> bool {
    let mut block = [0; 68];
    let widened = State::widen(part(r, 0, 24), &mut block);
    widened && block.as_slice() == part(r, 24, 68)
}
