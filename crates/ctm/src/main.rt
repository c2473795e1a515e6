// Reads a record on standard input and prints its run whole.
#![tactic(auto)]

use model::Road;

fn main() {
    let mut bytes = [0u8; Road::BYTES + 1];
    let size = io::read_full(0, &mut bytes);
    let mut text = printing::room();
    let end = printing::printed_within(&bytes[..size], Road::CELLS, Road::BYTES, &mut text);
    io::write_all(1, &text[..end]);
}
