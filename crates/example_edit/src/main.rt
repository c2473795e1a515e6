// Reads a record, changes a release, writes the record, and prints the run of each, by the call that docs/API.md shows.
#![tactic(auto)]

fn show(label: &[u8], value: u64) {
    io::write_all(1, label);
    io::print_decimal(1, value);
}

// Prints the count of bytes, the release, and the total and the exits of the run with all lanes open.
fn shown(bytes: &[u8], release: u32) {
    let mut list = [0u32; 9];
    let ended = freeway::run(bytes, b"", &mut list);
    show(b"bytes ", bytes.len() as u64);
    show(b" release ", release as u64);
    let state = ended.state;
    show(b" total ", state.total());
    show(b" exits ", freeway::exits(ended.road, state));
    io::write_all(1, b"\n");
}

// Writes the record with this release, and prints its run.
fn edited(bytes: &[u8], release: u32) {
    let mut list = [0u32; 15];
    let mut target = [0u8; 124];
    let count = example_calls::released(bytes, release, &mut list, &mut target);
    if count <= 124 {
        shown(&target[..count], release);
    }
}

fn main() {
    let mut bytes = [0u8; 124];
    let size = io::read_full(0, &mut bytes);
    edited(&bytes[..size], 300);
    edited(&bytes[..size], 200);
}
