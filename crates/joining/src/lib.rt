// Two neighbouring roads as one record, in a lent target.
#![tactic(auto)]

ghost use Rattle.std.specs.Prelude.{◌≡◌, ◌&&◌, List, [], ℕ, ◌+◌, ◌*◌, ◌≤◌, leb, eqb, length};
ghost use Rattle.model.specs.Numbers.{at, concat_of};
ghost use Rattle.numbers.specs.PlacedText.{Puts};
ghost use Rattle.model.specs.Road.{most_cells, most_steps, most_bytes, start_state};
ghost use Rattle.model.specs.Schedules.{study};
ghost use Rattle.model.specs.Record.{number_size, row_size, record_row};
ghost use Rattle.fields.specs.FieldsLaws.{HoldsRow};
ghost use Rattle.model.specs.Reading.{size_of, study_by};
ghost use Rattle.reading.specs.Headers.{Steps};
ghost use Rattle.model.specs.Encoding.{numbers_of, row_bytes, record_of};
ghost use Rattle.model.specs.Writing.{write_answer};
ghost use Rattle.model.specs.Joining.{joined_row, joined_study, joining_by, joining_of, joined_target, ReadsJoined};
ghost use Rattle.joining.specs.JoinedBytes.{with_share, joined_rows, JoinNeeds};
ghost use Rattle.joining.specs.JoiningLaws.{idle_by, Joinable};

use model::{Refusal, Road, Start, State, Written};

// The gate's arrivals in step t.
fn gate_arrivals(bytes: &[u8], n: usize, t: usize) -> u32
    requires { HoldsRow bytes.now n t }
    ensures { result ≡ at (record_row bytes.now n t) 0 }
{
    let start = fields::row_start(fields::version(bytes), n, t);
    fields::number(bytes, start, fields::NUMBER_SIZE)
}

// Whether a gate has no queue and no arrival in any step.
fn gate_idle(bytes: &[u8], n: usize, steps: usize, queue: u32) -> bool
    requires { Steps bytes.now n steps }
    ensures { result ≡ idle_by bytes.now n steps queue }
{
    if queue != 0 {
        return false;
    }
    let mut t = 0;
    while t < steps {
        if gate_arrivals(bytes, n, t) != 0 {
            return false;
        }
        t += 1;
    }
    true
}

// Whether T, version and seconds of two roads are the same.
fn alike(road: Road, steps: usize, next: Road, next_steps: usize) -> bool
    ensures { result ≡ eqb steps next_steps && (eqb road.version next.version && eqb road.seconds next.seconds) }
{
    (steps == next_steps) & ((road.version == next.version) & (road.seconds == next.seconds))
}

// Whether n is at most 64 and a record of n cells has at most 65,536 bytes.
fn fits(version: u8, n: usize, steps: usize) -> bool
    requires { steps ≤ most_steps }
    ensures { result ≡ leb n most_cells && leb (size_of version n steps) most_bytes }
{
    if Road::CELLS < n {
        return false;
    }
    fields::row_start(version, n, steps) <= Road::BYTES
}

// For two records that read: 5 at the joint, 20, 21, 22 and 15, or the count of the joined record's bytes.
fn checked(
    road: Road,
    steps: usize,
    downstream: &[u8],
    next: Road,
    next_state: State,
    next_steps: usize,
    share: u16,
    room: usize,
) -> Written
    requires { Joinable road steps downstream.now next next_steps }
    ensures { (start : State) (rows : ℕ → List ℕ) → write_answer result
        ≡ joining_by (study road start steps rows []) (study_by downstream.now [] next next_state next_steps) share room }
{
    let n = road.n;
    if Road::WHOLE < share {
        return writing::refused(Refusal::Limits, n);
    }
    if !alike(road, steps, next, next_steps) {
        return writing::refused(Refusal::RoadsDiffer, 0);
    }
    if !gate_idle(downstream, next.n, next_steps, next_state.gate_queue) {
        return writing::refused(Refusal::SecondGate, 0);
    }
    let version = road.version;
    let cells = n + next.n;
    if !fits(version, cells, steps) {
        return writing::refused(Refusal::JoinedSize, 0);
    }
    let size = fields::row_start(version, cells, steps);
    if room < size {
        return writing::refused(Refusal::TargetLength, 0);
    }
    Written {
        refusal: Refusal::None,
        place: 0,
        count: size,
    }
}

// The road with another share at its last cell.
fn with_share(road: Road, share: u16) -> Road
    requires { (1 ≤ road.n) × (road.n ≤ most_cells) }
    ensures { result ≡ with_share road share }
{
    let last = road.n - 1;
    let mut joint = road;
    joint.share[last] = share;
    joint
}

// Puts a row, then the next road's without its gate arrivals.
fn put_joined_row(target: &mut [u8], at: usize, row: &[u32], next: &[u32]) -> usize
    requires { (1 ≤ length next.now) × (at + length (joined_row row.now next.now) * number_size ≤ length target.old) }
    ensures { Puts target.old at
        (numbers_of (joined_row row.now next.now) (length (joined_row row.now next.now))) target.new result }
{
    let end = encoding::put_row(target, at, row);
    encoding::put_row(target, end, &next[1..])
}

// Puts the rows of all steps, joined step by step.
fn put_joined_rows(
    target: &mut [u8],
    at: usize,
    upstream: &[u8],
    n: usize,
    downstream: &[u8],
    m: usize,
    steps: usize,
) -> usize
    requires { (Steps upstream.now n steps) × ((Steps downstream.now m steps) × (at + steps * row_size (n + m) ≤ length target.old)) }
    ensures { Puts target.old at
        (concat_of (row_bytes (n + m) (joined_rows upstream.now n downstream.now m)) steps) target.new result }
{
    let numbers = 1 + 2 * n;
    let next_numbers = 1 + 2 * m;
    let mut end = at;
    let mut t = 0;
    while t < steps {
        let row = fields::row(upstream, n, t);
        let next = fields::row(downstream, m, t);
        end = put_joined_row(target, end, &row[..numbers], &next[..next_numbers]);
        t += 1;
    }
    end
}

// Puts the joined record's bytes at the start of the target.
fn put_joined(
    target: &mut [u8],
    upstream: &[u8],
    road: Road,
    start: Start,
    downstream: &[u8],
    next: Road,
    next_start: Start,
    steps: usize,
    share: u16,
) -> usize
    requires { JoinNeeds upstream.now road steps downstream.now next target.old }
    ensures { Puts target.old 0
        (record_of (joined_study (study_by upstream.now [] road (start_state start) steps)
        (study_by downstream.now [] next (start_state next_start) steps) share))
        target.new result }
{
    let n = road.n;
    let m = next.n;
    let to_cells = encoding::put_header(
        target,
        road.version,
        n + m,
        steps,
        road.seconds,
        road.gate_capacity,
        start.gate_queue,
    );
    let joint = with_share(road, share);
    let to_next = encoding::put_cells(target, to_cells, joint, start);
    let to_rows = encoding::put_cells(target, to_next, next, next_start);
    put_joined_rows(target, to_rows, upstream, n, downstream, m, steps)
}

// Joins two records into the target, or leaves it unchanged: the refusals of reading, upstream first, then 5, 20, 21, 22 and 15.
pub fn join(upstream: &[u8], downstream: &[u8], share: u16, target: &mut [u8]) -> Written
    ensures answer { write_answer result ≡ joining_of upstream.now downstream.now share target.old }
    ensures target { target.new ≡ joined_target upstream.now downstream.now share target.old }
    ensures reads { (write_answer result).number ≡ 0 → ReadsJoined upstream.now downstream.now share result.count target.new }
{
    let a = reading::read(upstream);
    let first = a.refusal;
    if first.number() != 0 {
        return writing::refused(first, a.place);
    }
    let b = reading::read(downstream);
    let second = b.refusal;
    if second.number() != 0 {
        return writing::refused(second, b.place);
    }
    let road = a.road;
    let next = b.road;
    let state = a.state;
    let other = b.state;
    let room = target.len();
    let answer = checked(road, a.steps, downstream, next, other, b.steps, share, room);
    let refusal = answer.refusal;
    if refusal.number() != 0 {
        return answer;
    }
    let start = state.start();
    let next_start = other.start();
    put_joined(
        target, upstream, road, start, downstream, next, next_start, a.steps, share,
    );
    answer
}
