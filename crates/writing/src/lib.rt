// Writing a record: a road, T, a start and its rows, into a lent target.
#![tactic(auto)]

ghost use Rattle.std.specs.Prelude.{◌≡◌};
ghost use Rattle.model.specs.Numbers.{first_of, row_at};
ghost use Rattle.model.specs.Refusals.{refusal_number};
ghost use Rattle.model.specs.Record.{row_numbers};
ghost use Rattle.encoding.specs.Encoding.{Rows};
ghost use Rattle.model.specs.Limits.{row_ok};
ghost use Rattle.model.specs.Writing.{unwritten, write_answer, frame_fault, writing_of, target_after, ReadsBack};

use model::{Refusal, Road, Start, Written};

// 2, 3, 19, 1 and 4: the version, n and T, the seconds, the record's size, and the count of the rows' numbers.
fn frame_refusal(version: u8, seconds: u16, n: usize, steps: usize, numbers: usize) -> Refusal
    ensures { refusal_number result ≡ frame_fault version seconds n steps numbers }
{
    if !fields::version_known(version) {
        return Refusal::Version;
    }
    if !fields::cells_and_steps_within(n, steps) {
        return Refusal::Counts;
    }
    if !fields::seconds_within(version, seconds) {
        return Refusal::Seconds;
    }
    if Road::BYTES < fields::row_start(version, n, steps) {
        return Refusal::Length;
    }
    if numbers != steps * (1 + 2 * n) {
        return Refusal::Size;
    }
    Refusal::None
}

// The first step whose row is out of its limits, or `steps`.
fn first_row(ramp: [u16; 64], n: usize, rows: &[u32], steps: usize) -> usize
    requires { Rows rows.now n steps }
    ensures { result ≡ first_of (λ j. row_ok ramp n (row_at rows.now (row_numbers n) j)) steps }
{
    let numbers = 1 + 2 * n;
    let mut from = 0;
    let mut t = 0;
    while t < steps {
        let end = from + numbers;
        if !limits::row_within(ramp, n, &rows[from..end]) {
            return t;
        }
        from = end;
        t += 1;
    }
    t
}

pub fn refused(refusal: Refusal, place: usize) -> Written
    ensures { write_answer result ≡ unwritten (refusal_number refusal) place }
{
    Written {
        refusal: refusal,
        place: place,
        count: 0,
    }
}

// The first refusal, or the count of the record's bytes.
fn checked(road: Road, steps: usize, start: Start, rows: &[u32], target: &[u8]) -> Written
    ensures { write_answer result ≡ writing_of road steps start rows.now target.now }
{
    let n = road.n;
    let version = road.version;
    let frame = frame_refusal(version, road.seconds, n, steps, rows.len());
    if frame.number() != 0 {
        return refused(frame, 0);
    }
    let state = start.state();
    let place = limits::first_place(road, state);
    if place != n + 1 {
        return refused(Refusal::Limits, place);
    }
    let ramp = road.ramp;
    let step = first_row(ramp, n, rows, steps);
    if step != steps {
        return refused(Refusal::Rates, step);
    }
    let size = fields::row_start(version, n, steps);
    if target.len() < size {
        return refused(Refusal::TargetLength, 0);
    }
    Written {
        refusal: Refusal::None,
        place: 0,
        count: size,
    }
}

// Writes a record into the target, or leaves it unchanged: 2, 3, 19, 1, 4, 5, 6, then 15.
pub fn write(road: Road, steps: usize, start: Start, rows: &[u32], target: &mut [u8]) -> Written
    ensures answer { write_answer result ≡ writing_of road steps start rows.now target.old }
    ensures target { target.new ≡ target_after road steps start rows.now target.old }
    ensures back { (write_answer result).number ≡ 0 → ReadsBack road steps start rows.now (write_answer result).count target.new }
{
    let a = checked(road, steps, start, rows, target);
    let refusal = a.refusal;
    if refusal.number() != 0 {
        return a;
    }
    encoding::put_record(road, steps, start, rows, target);
    a
}
