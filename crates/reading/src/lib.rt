// Reading a record: the road, T and the state before step 0, or the first refusal in the model's order.
#![tactic(auto)]

ghost use Rattle.std.specs.Prelude.{◌≡◌, true, ℕ, ◌+◌, ◌*◌, ◌≤◌, ◌<◌, length};
ghost use Rattle.model.specs.Refusals.{refusal_number};
ghost use Rattle.model.specs.Numbers.{first_of};
ghost use Rattle.model.specs.Road.{most_cells};
ghost use Rattle.model.specs.Limits.{row_ok};
ghost use Rattle.model.specs.Record.{row_size, record_row};
ghost use Rattle.fields.specs.FieldsLaws.{HoldsRow};
ghost use Rattle.model.specs.Reading.{road_of, start_of, step_ok, refused_of, read_answer, reading_within, reading_of};
ghost use Rattle.reading.specs.Headers.{Cells, Steps, Header};
ghost use Rattle.reading.specs.Greatest.{row_at, RaiseRequires, AbovePart, AboveParts};

use model::{Reading, Refusal, Road, State};

// The bytes of a row of 64 cells, the longest row.
const ROW_BYTES: usize = 516;

// The road of a record of n cells.
fn road_of(bytes: &[u8], n: usize) -> Road
    requires { Cells bytes.now n }
    ensures { result ≡ road_of bytes.now }
{
    let version = fields::version(bytes);
    let gate = fields::GATE_CAPACITY_OFFSET + fields::seconds_size(version);
    Road {
        n: n,
        version: version,
        seconds: fields::seconds(bytes),
        gate_capacity: fields::number(bytes, gate, fields::NUMBER_SIZE),
        speed: fields::short_column(bytes, fields::SPEED_OFFSET, n),
        wave: fields::short_column(bytes, fields::WAVE_OFFSET, n),
        share: fields::short_column(bytes, fields::SHARE_OFFSET, n),
        ramp: fields::short_column(bytes, fields::RAMP_OFFSET, n),
        jam: fields::column(bytes, fields::JAM_OFFSET, n),
        capacity: fields::column(bytes, fields::CAPACITY_OFFSET, n),
    }
}

// The state before step 0 of a record of n cells.
fn start_of(bytes: &[u8], n: usize) -> State
    requires { Cells bytes.now n }
    ensures { result ≡ start_of bytes.now }
{
    let gate = fields::GATE_QUEUE_OFFSET + fields::seconds_size(fields::version(bytes));
    State {
        done: 0,
        gate_time: 0,
        road_time: 0,
        ramp_time: 0,
        gate_queue: fields::number(bytes, gate, fields::NUMBER_SIZE),
        gate_cumulative: 0,
        held: fields::column(bytes, fields::HELD_OFFSET, n),
        queue: fields::column(bytes, fields::QUEUE_OFFSET, n),
        cumulative: [0; 64],
    }
}

// Whether the numbers of a row that starts at byte `start` are within their limits, tested one after the other.
fn numbers_within(bytes: &[u8], ramp: &[u16; 64], n: usize, start: usize) -> bool
    requires { (n ≤ most_cells) × (start + row_size n ≤ length bytes.now) }
    ensures { result ≡ row_ok ramp.now n (row_at bytes.now n start) }
{
    if Road::RATE < fields::number(bytes, start, fields::NUMBER_SIZE) {
        return false;
    }
    let mut i = 0;
    while i < n {
        let place = start + fields::NUMBER_SIZE * (2 * i + 1);
        let arrivals = fields::number(bytes, place, fields::NUMBER_SIZE);
        let release = fields::number(bytes, place + fields::NUMBER_SIZE, fields::NUMBER_SIZE);
        if !limits::rates_within(ramp[i], arrivals, release) {
            return false;
        }
        i += 1;
    }
    true
}

// Whether the row of step t is within its limits.
fn row_within(bytes: &[u8], ramp: &[u16; 64], n: usize, t: usize) -> bool
    requires { HoldsRow bytes.now n t }
    ensures { result ≡ row_ok ramp.now n (record_row bytes.now n t) }
{
    let start = fields::row_start(fields::version(bytes), n, t);
    numbers_within(bytes, ramp, n, start)
}

// A byte that is at least `a` and at least `b`: the greater of the two.
fn greater(a: u8, b: u8) -> u8
    ensures { (a ≤ result) × (b ≤ result) }
{
    if a < b {
        return b;
    }
    a
}

// Raises the greatest bytes to the `size` bytes from `start` on. The loop has no early exit and no carried value, so it becomes vector code.
fn raise_to_part(bytes: &[u8], start: usize, size: usize, greatest: &mut [u8; ROW_BYTES])
    requires { RaiseRequires bytes.now start size 1 greatest.old }
    ensures { AbovePart bytes.now start size greatest.old greatest.new }
{
    let mut j = 0;
    while j < size {
        greatest[j] = greater(greatest[j], bytes[start + j]);
        j += 1;
    }
}

// Raises the greatest bytes to each of `count` parts of `size` bytes, one after the other from `start` on.
fn raise_to_parts(
    bytes: &[u8],
    start: usize,
    size: usize,
    count: usize,
    greatest: &mut [u8; ROW_BYTES],
)
    requires { RaiseRequires bytes.now start size count greatest.old }
    ensures { AboveParts bytes.now start size count greatest.old greatest.new }
{
    let mut k = 0;
    while k < count {
        raise_to_part(bytes, start + k * size, size, greatest);
        k += 1;
    }
}

// Whether the greatest bytes of all rows make a row within its limits; if so, every row is. Short rows are tested side by side, in blocks.
fn all_rows_within(bytes: &[u8], ramp: &[u16; 64], n: usize, steps: usize) -> bool
    requires { Steps bytes.now n steps }
    ensures { result ≡ true → (t : ℕ) → t < steps → row_ok ramp.now n (record_row bytes.now n t) ≡ true }
{
    let version = fields::version(bytes);
    let size = fields::NUMBER_SIZE + fields::RATES_SIZE * n;
    let beside = ROW_BYTES / size;
    let blocks = steps / beside;
    let blocked = blocks * beside;
    let start = fields::row_start(version, n, 0);
    let left = fields::row_start(version, n, blocked);
    let mut block = [0u8; ROW_BYTES];
    raise_to_parts(bytes, start, beside * size, blocks, &mut block);
    let mut row = [0u8; ROW_BYTES];
    raise_to_parts(&block, 0, size, beside, &mut row);
    raise_to_parts(bytes, left, size, steps - blocked, &mut row);
    numbers_within(&row, ramp, n, 0)
}

// The first step whose row is out of its limits, or `steps`.
fn first_row(bytes: &[u8], road: Road, steps: usize) -> usize
    requires { Steps bytes.now road.n steps }
    ensures { result ≡ first_of (step_ok bytes.now road) steps }
{
    let n = road.n;
    let ramp = road.ramp;
    if all_rows_within(bytes, &ramp, n, steps) {
        return steps;
    }
    let mut t = 0;
    while t < steps {
        if !row_within(bytes, &ramp, n, t) {
            return t;
        }
        t += 1;
    }
    t
}

// A refusal gives an all-zero road and state.
pub fn refused(refusal: Refusal, place: usize) -> Reading
    ensures { read_answer result ≡ refused_of (refusal_number refusal) place }
{
    Reading {
        refusal: refusal,
        place: place,
        steps: 0,
        road: Road::empty(),
        state: State::empty(),
    }
}

// Refusals 5 and 6, or the record's road, T and start.
fn body(bytes: &[u8], n: usize, steps: usize) -> Reading
    requires { Header bytes.now n steps }
    ensures { read_answer result ≡ reading_of bytes.now }
{
    let road = road_of(bytes, n);
    let state = start_of(bytes, n);
    let place = limits::first_place(road, state);
    if place != n + 1 {
        return refused(Refusal::Limits, place);
    }
    let step = first_row(bytes, road, steps);
    if step != steps {
        return refused(Refusal::Rates, step);
    }
    Reading {
        refusal: Refusal::None,
        place: 0,
        steps: steps,
        road: road,
        state: state,
    }
}

// Reads a record of any length for a caller that takes at most `cells` cells and `most` bytes; refusals 1, 2, 3, 19, 4 and 26 come first.
pub fn read_within(bytes: &[u8], cells: usize, most: usize) -> Reading
    ensures { read_answer result ≡ reading_within cells most bytes.now }
{
    if !fields::length_within(bytes) {
        return refused(Refusal::Length, 0);
    }
    let version = fields::version(bytes);
    if !fields::version_known(version) {
        return refused(Refusal::Version, 0);
    }
    let n = fields::number(bytes, fields::CELLS_OFFSET, 1) as usize;
    let steps = fields::number(bytes, fields::STEPS_OFFSET, fields::SHORT_SIZE) as usize;
    if !fields::cells_and_steps_within(n, steps) {
        return refused(Refusal::Counts, 0);
    }
    if !fields::seconds_within(version, fields::seconds(bytes)) {
        return refused(Refusal::Seconds, 0);
    }
    if bytes.len() != fields::row_start(version, n, steps) {
        return refused(Refusal::Size, 0);
    }
    if !fields::caller_within(cells, most, n, bytes.len()) {
        return refused(Refusal::CallerLimits, 0);
    }
    body(bytes, n, steps)
}

// Reads a record of any length, with only the model's limits.
pub fn read(bytes: &[u8]) -> Reading
    ensures { read_answer result ≡ reading_of bytes.now }
{
    read_within(bytes, Road::CELLS, Road::BYTES)
}
