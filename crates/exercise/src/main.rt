// The program for exercises: like `ctm`, for records of at most 8 cells and 4,096 bytes; a larger record is refused with 26.
#![tactic(auto)]

use model::Road;

const CELLS: usize = 8;

const BYTES: usize = 4096;

// One more byte is read than a record may have, so that refusal 1 is printed as `ctm` prints it.
fn main() {
    let mut bytes = [0u8; Road::BYTES + 1];
    let size = io::read_full(0, &mut bytes);
    let mut text = printing::room();
    let end = printing::printed_within(&bytes[..size], CELLS, BYTES, &mut text);
    io::write_all(1, &text[..end]);
}
