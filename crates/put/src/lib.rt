// Releases put into a record, which then reads as before; one release put at a ramp and a step.
#![tactic(auto)]

ghost use Rattle.std.specs.Prelude.{◌≡◌, ◌≤◌};
ghost use Rattle.model.specs.Road.{most_cells};
ghost use Rattle.model.specs.Refusals.{fault_answer};
ghost use Rattle.put.specs.PutLaws.{Place};
ghost use Rattle.model.specs.Put.{ramp_ok, step_and_rate_ok, putting_of, with_release, released_record, PutEnds};

use model::{Fault, Refusal, Road};

// Whether a cell is on a road of n cells and has a ramp.
fn has_ramp(ramp: [u16; 64], n: usize, cell: usize) -> bool
    requires { n ≤ most_cells }
    ensures { result ≡ ramp_ok ramp n cell }
{
    if cell < 1 {
        return false;
    }
    if n < cell {
        return false;
    }
    ramp[cell - 1] == 1
}

// Whether a step is one of the record's and a release is at most 1,000,000.
fn rates_within(step: usize, steps: usize, release: u32) -> bool
    ensures { result ≡ step_and_rate_ok step steps release }
{
    (step < steps) & (release <= Road::RATE)
}

// Puts the release of a cell into the row of a step.
fn put_release(bytes: &mut [u8], n: usize, step: usize, cell: usize, release: u32)
    requires { Place bytes.old n step cell }
    ensures { bytes.new ≡ with_release bytes.old n step cell release }
{
    let start = fields::row_start(fields::version(bytes), n, step);
    fields::put_number(bytes, start + fields::NUMBER_SIZE * (2 * cell), release);
}

// Puts a release into a record at a step and a cell: the refusals of reading, then 5, then 6.
pub fn put(bytes: &mut [u8], step: usize, cell: usize, release: u32) -> Fault
    ensures answer { fault_answer result ≡ putting_of bytes.old step cell release }
    ensures bytes { bytes.new ≡ released_record bytes.old step cell release }
    ensures ends { PutEnds bytes.old step cell release (fault_answer result) bytes.new }
{
    let a = reading::read(bytes);
    let refusal = a.refusal;
    if refusal.number() != 0 {
        return Fault {
            refusal: refusal,
            place: a.place,
        };
    }
    let road = a.road;
    let ramp = road.ramp;
    let n = road.n;
    if !has_ramp(ramp, n, cell) {
        return Fault {
            refusal: Refusal::Limits,
            place: cell,
        };
    }
    if !rates_within(step, a.steps, release) {
        return Fault {
            refusal: Refusal::Rates,
            place: step,
        };
    }
    put_release(bytes, n, step, cell, release);
    Fault {
        refusal: Refusal::None,
        place: 0,
    }
}
