// The move by a row of outflows, and the count; stepping.
#![tactic(auto)]

pub mod lent;

ghost use Rattle.std.specs.Prelude.{◌≡◌, ◌+◌, ◌<◌, length};
ghost use Rattle.model.specs.Road.{most_steps};
ghost use Rattle.model.specs.Move.{next_of};
ghost use Rattle.model.specs.Schedules.{outflows_of};
ghost use Rattle.model.specs.Stepping.{step_on, stepping_of, step_answer};
ghost use Rattle.stepping.specs.StepNeeds.{Movable, Steppable};
ghost use Rattle.stepping.specs.Findings.{StepInputOk};

use model::{Refusal, Road, State, Stepped};
use outflows::Ledger;

// The state after a step with a row of outflows that obeys the rules.
pub fn next_by(r: Road, s: State, row: &[u32], y: &[u32]) -> State
    requires { (Movable r s row.now y.now) × (s.done < most_steps) }
    ensures { result ≡ next_of r s row.now y.now }
{
    let mut held = s.held;
    let mut queue = s.queue;
    let mut cumulative = s.cumulative;
    let l = Ledger {
        done: s.done,
        gate_time: s.gate_time,
        road_time: s.road_time,
        ramp_time: s.ramp_time,
        gate_queue: s.gate_queue,
        gate_cumulative: s.gate_cumulative,
    };
    let t = lent::advance(
        r.n,
        &r.share,
        l,
        &mut held,
        &mut queue,
        &mut cumulative,
        row,
        y,
    );
    t.state(held, queue, cumulative)
}

// Fills a row with the engine's outflows, if the releases fit.
fn fill_outflows(r: Road, s: State, row: &[u32], y: &mut [u32])
    requires { (Steppable r s row.now) × (length y.old ≡ r.n + 1) }
    ensures { y.new ≡ outflows_of r s row.now }
{
    let mut room = [0u32; 64];
    outflows::lent::releases(
        r.n,
        &r.wave,
        &r.jam,
        &r.capacity,
        &s.held,
        &s.queue,
        row,
        &mut room,
    );
    outflows::lent::outflows(
        r.n,
        r.gate_capacity,
        &r.speed,
        &r.share,
        &r.capacity,
        s.gate_queue,
        s.gate_cumulative,
        &s.held,
        &s.cumulative,
        &room,
        y,
    );
}

// Fills a row with the engine's outflows, and returns the state after the step.
pub fn next(r: Road, s: State, row: &[u32], y: &mut [u32]) -> State
    requires { (Steppable r s row.now) × (length y.old ≡ r.n + 1) }
    ensures state { result ≡ next_of r s row.now (outflows_of r s row.now) }
    ensures row { y.new ≡ outflows_of r s row.now }
{
    fill_outflows(r, s, row, y);
    next_by(r, s, row, y)
}

// A refused step returns the state given.
fn refused(refusal: Refusal, place: usize, s: State) -> Stepped
    ensures { result ≡ record { refusal = refusal; step = 0; place = place; state = s } }
{
    Stepped {
        refusal: refusal,
        step: 0,
        place: place,
        state: s,
    }
}

// A step on its road, with an input within the limits: 8, then 9 or 10.
fn step_on(r: Road, s: State, row: &[u32]) -> Stepped
    requires { StepInputOk r s row.now }
    ensures { step_answer result ≡ step_on r s row.now }
{
    if s.done == Road::STEPS {
        return refused(Refusal::StepsDone, 0, s);
    }
    let q = outflows::releases(r, s, row);
    let refusal = q.refusal;
    if refusal.number() != 0 {
        return refused(refusal, q.place, s);
    }
    let places = r.n + 1;
    let mut y = [0u32; 65];
    let t = next(r, s, row, &mut y[..places]);
    Stepped {
        refusal: Refusal::None,
        step: 0,
        place: 0,
        state: t,
    }
}

// One step of a road with a row of numbers in the record's order, and the lanes built and open of each cell.
pub fn step(r: Road, s: State, row: &[u32], built: [u8; 64], usable: [u8; 64]) -> Stepped
    ensures { step_answer result ≡ stepping_of r s row.now built usable }
{
    if !limits::input_within(r, s, row) {
        return refused(Refusal::StepInput, 0, s);
    }
    let n = r.n;
    let cell = lanes::first_cell(built, usable, n);
    if cell != n {
        return refused(Refusal::Lanes, cell + 1, s);
    }
    let capacity = r.capacity;
    let left = lanes::open_capacities(capacity, &built, &usable, n);
    let mut road = r;
    road.capacity = left;
    step_on(road, s, row)
}
