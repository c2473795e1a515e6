// The words and lines of the program's listing.
#![tactic(auto)]

ghost use Rattle.std.specs.Prelude.{◌+◌, ◌≤◌, ◌*◌, ◌<◌, length};
ghost use Rattle.numbers.specs.PlacedText.{Puts};
ghost use Rattle.model.specs.Words.{most_word, word_of, named_of};
ghost use Rattle.model.specs.Road.{most_cells};
ghost use Rattle.model.specs.declared.State.{State};
ghost use Rattle.model.specs.Listing.{most_line, most_last, most_time, header_line, line_of, lines_of, total_line, seconds_line, refused_line};
ghost use Rattle.listing.specs.ListingLaws.{showing};

// Copies a text into the buffer from `at` on, and returns the index after it.
pub fn put(buffer: &mut [u8], at: usize, text: &[u8]) -> usize
    requires { at + length text.now ≤ length buffer.old }
    ensures { Puts buffer.old at text.now buffer.new result }
{
    let mut i = 0;
    while i < text.len() {
        buffer[at + i] = text[i];
        i += 1;
    }
    at + i
}

// Puts a number in decimal and the byte after it.
pub fn word(buffer: &mut [u8], at: usize, n: u64, after: u8) -> usize
    requires { at + most_word ≤ length buffer.old }
    ensures { Puts buffer.old at (word_of n after) buffer.new result }
{
    let mut digits = [0u8; 20];
    let k = io::decimal(n, &mut digits);
    let end = put(buffer, at, &digits[..k]);
    put(buffer, end, &[after])
}

// Puts a name, a number in decimal and the byte after it.
pub fn named(buffer: &mut [u8], at: usize, name: &[u8], n: u64, after: u8) -> usize
    requires { at + (length name.now + most_word) ≤ length buffer.old }
    ensures { Puts buffer.old at (named_of name.now n after) buffer.new result }
{
    let end = put(buffer, at, name);
    word(buffer, end, n, after)
}

// Puts the line of one place.
fn line(
    buffer: &mut [u8],
    at: usize,
    step: usize,
    place: usize,
    outflow: u32,
    held: u32,
    queue: u32,
) -> usize
    requires { at + most_line ≤ length buffer.old }
    ensures { Puts buffer.old at (line_of step place outflow held queue) buffer.new result }
{
    let to_place = word(buffer, at, step as u64, b' ');
    let to_outflow = word(buffer, to_place, place as u64, b' ');
    let to_held = word(buffer, to_outflow, outflow as u64, b' ');
    let to_queue = word(buffer, to_held, held as u64, b' ');
    word(buffer, to_queue, queue as u64, b'\n')
}

// Puts the lines of a step: of its row of outflows and the state after it, whose columns are lent.
pub fn lines<'a>(
    buffer: &mut [u8],
    at: usize,
    step: usize,
    n: usize,
    outflows: &[u32],
    gate_queue: u32,
    held: &'a [u32; 64],
    queue: &'a [u32; 64],
) -> usize
    requires { (n ≤ most_cells) × ((n < length outflows.now) × (at + most_line * (n + 1) ≤ length buffer.old)) }
    ensures { (s : State) → Puts buffer.old at
        (lines_of step outflows.now (showing s gate_queue held.now queue.now) n) buffer.new result }
{
    let mut end = line(buffer, at, step, 0, outflows[0], gate_queue, 0);
    let mut i = 0;
    while i < n {
        end = line(buffer, end, step, i + 1, outflows[i + 1], held[i], queue[i]);
        i += 1;
    }
    end
}

// Puts the header.
pub fn header(buffer: &mut [u8], at: usize) -> usize
    requires { at + most_line ≤ length buffer.old }
    ensures { Puts buffer.old at header_line buffer.new result }
{
    put(buffer, at, b"step place outflow held queue\n")
}

// Puts the line of the totals.
pub fn total(
    buffer: &mut [u8],
    at: usize,
    total: u64,
    gate: u64,
    road: u64,
    ramp: u64,
    exits: u64,
) -> usize
    requires { at + most_last ≤ length buffer.old }
    ensures { Puts buffer.old at (total_line total gate road ramp exits) buffer.new result }
{
    let to_gate = named(buffer, at, b"total ", total, b' ');
    let to_road = named(buffer, to_gate, b"gate ", gate, b' ');
    let to_ramp = named(buffer, to_road, b"road ", road, b' ');
    let to_exits = named(buffer, to_ramp, b"ramp ", ramp, b' ');
    named(buffer, to_exits, b"exits ", exits, b'\n')
}

// Puts the line of the seconds, after that of the totals.
pub fn seconds(buffer: &mut [u8], at: usize, time: u64) -> usize
    requires { at + most_time ≤ length buffer.old }
    ensures { Puts buffer.old at (seconds_line time) buffer.new result }
{
    named(buffer, at, b"seconds ", time, b'\n')
}

// Puts the only line of a refusal.
pub fn refused(buffer: &mut [u8], at: usize, number: u8, step: usize, place: usize) -> usize
    requires { at + most_line ≤ length buffer.old }
    ensures { Puts buffer.old at (refused_line number step place) buffer.new result }
{
    let to_number = put(buffer, at, b"refused ");
    let to_step = word(buffer, to_number, number as u64, b' ');
    let to_place = word(buffer, to_step, step as u64, b' ');
    word(buffer, to_place, place as u64, b'\n')
}
