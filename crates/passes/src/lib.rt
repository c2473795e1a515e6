// One step in passes over columns, in 32 bits: supplies, releases, demands, then outflows and move. Of b x F only the remainder by 1,000 is needed.
#![tactic(auto)]

mod at_ramps;
mod columns;
mod sending;

ghost use Rattle.std.specs.Prelude.{◌≡◌, List, ℕ, min};
ghost use Rattle.model.specs.Numbers.{fill_of};
ghost use Rattle.model.specs.declared.Road.{Road};
ghost use Rattle.model.specs.Refusals.{fault_answer};
ghost use Rattle.model.specs.Stepping.{releases_of};
ghost use Rattle.fields.specs.FieldsLaws.{HoldsRow};
ghost use Rattle.model.specs.Record.{record_row};
ghost use Rattle.outflows.specs.declared.Ledger.{Ledger};
ghost use Rattle.outflows.specs.Columns.{with_demands, with_supplies};
ghost use Rattle.passes.specs.Tables.{road_in, state_in, jam_col, capacity_col, cell_col};
ghost use Rattle.passes.specs.Supplies.{supply_in, demand_in, SuppliesRequire, DemandsRequire};
ghost use Rattle.passes.specs.Next.{NextRequires, NextLent, NextGives};
ghost use Rattle.passes.specs.Step.{StepRequires, StepLent, StepGives};

pub use columns::{
    CAME, CAPACITY, CELL, CUMULATIVE, DEMAND, HELD, JAM, QUEUE, RELEASE, REST, ROOM, SHARE, SPEED,
    Size, WAITING, WAVE, list_ramps, of_state, rates, sizes, to_state,
};
use model::{Fault, Refusal};
use outflows::Ledger;

// The smaller of two numbers.
pub fn least(a: u32, b: u32) -> u32
    ensures { result ≡ min a b }
{
    if a < b { a } else { b }
}

// The supplies of the first `count` cells.
pub fn supplies(
    count: usize,
    wave: &[u16; 64],
    jam: &[u32; 64],
    capacity: &[u32; 64],
    held: &[u32; 64],
    room: &mut [u32; 65],
)
    requires { SuppliesRequire count wave.now jam.now held.now }
    ensures { room.new
        ≡ fill_of (supply_in wave.now jam.now capacity.now held.now) count room.old }
{
    let mut i = 0;
    while i < count {
        room[i] = least(capacity[i], (wave[i] as u32) * (jam[i] - held[i]) / 1000);
        i += 1;
    }
}

// The demands of the first `count` cells. The callers of `next` compute them: in their loops the compiler sees that no columns overlap.
pub fn demands(
    count: usize,
    speed: &[u16; 64],
    capacity: &[u32; 64],
    held: &[u32; 64],
    demand: &mut [u32; 65],
)
    requires { DemandsRequire count speed.now held.now }
    ensures { demand.new
        ≡ fill_of (demand_in speed.now capacity.now held.now) count demand.old }
{
    let mut i = 0;
    while i < count {
        demand[i] = least(capacity[i], (speed[i] as u32) * held[i] / 1000);
        i += 1;
    }
}

// The fault of the releases of step `k`, with its cell, for a row whose releases do not fit.
fn fault<'a, 'b>(
    bytes: &[u8],
    n: usize,
    k: usize,
    wave: &'a [u16; 64],
    sizes: &'a [[u32; 64]; 3],
    state: &'b [[u32; 64]; 4],
) -> Fault
    requires { HoldsRow bytes.now n k }
    ensures { (r : Road) (l : Ledger) → fault_answer result
        ≡ releases_of (with_supplies r n wave.now (jam_col sizes.now) (capacity_col sizes.now))
        (state_in l state.now) (record_row bytes.now n k) }
{
    let numbers = 1 + 2 * n;
    let row = fields::row(bytes, n, k);
    let mut room = [0u32; 64];
    outflows::lent::releases(
        n,
        wave,
        &sizes[JAM],
        &sizes[CAPACITY],
        &state[HELD],
        &state[QUEUE],
        &row[..numbers],
        &mut room,
    )
}

// A step whose releases are taken and whose demands are known: outflows, move and count. The numbers of the road's size are passed one by one: so
// the compiler copies this function into both loops over the steps (docs/SPEED.md).
pub fn next(
    n: usize,
    ramps: usize,
    gate_capacity: u32,
    share: &[u16; 64],
    cell: &[u32; 64],
    arrivals: u32,
    l: Ledger,
    work: &[[u32; 65]; 5],
    state: &mut [[u32; 64]; 4],
    y: &mut [u32],
) -> Ledger
    requires { NextLent n ramps gate_capacity share.now cell.now arrivals l state.old work.now y.old }
    ensures { (r : Road) (row : List ℕ)
        → NextRequires (with_demands r n gate_capacity r.speed share.now r.capacity) l state.old row
        ramps arrivals cell.now work.now
        → NextGives (with_demands r n gate_capacity r.speed share.now r.capacity) (state_in l state.old) row
        result state.new y.new }
{
    let rooms = &work[ROOM];
    let first = least(flow::gate_demand(gate_capacity, l.gate_queue), rooms[0]);
    let sent = sending::send(n, share, &work[DEMAND], rooms, first, state, y);
    let sums = at_ramps::add_releases(n, ramps, cell, &work[RELEASE], &work[WAITING], sent, state);
    let queued = l.gate_queue + arrivals - first;
    Ledger {
        done: l.done + 1,
        gate_time: l.gate_time + queued as u64,
        road_time: l.road_time + sums.on_road as u64,
        ramp_time: l.ramp_time + sums.at_ramps,
        gate_queue: queued,
        gate_cumulative: l.gate_cumulative + first,
    }
}

// What a step gives: its fault, or none and the ledger after it.
#[derive(Clone, Copy)]
pub struct Outcome {
    pub fault: Fault,
    pub ledger: Ledger,
}

// Step `k` of a record on a road and a state that are lent as tables of columns; `y` receives its outflows. A fault leaves state and row unchanged.
pub fn step<'a>(
    bytes: &[u8],
    k: usize,
    size: Size,
    rates: &'a [[u16; 64]; 3],
    sizes: &'a [[u32; 64]; 3],
    l: Ledger,
    state: &mut [[u32; 64]; 4],
    work: &mut [[u32; 65]; 5],
    y: &mut [u32],
) -> Outcome
    requires { StepLent bytes.now k size rates.now sizes.now l state.old work.old y.old }
    ensures { (r : Road)
        → StepRequires bytes.now k (road_in r size rates.now sizes.now) size.ramps (cell_col sizes.now)
        l state.old work.old y.old
        → StepGives bytes.now k (road_in r size rates.now sizes.now) size.ramps (cell_col sizes.now)
        l state.old y.old (fault_answer result.fault) result.ledger state.new work.new y.new }
{
    let n = size.n;
    let wave = &rates[WAVE];
    let jam = &sizes[JAM];
    let capacity = &sizes[CAPACITY];
    let cell = &sizes[CELL];
    let start = fields::row_start(fields::version(bytes), n, k);
    supplies(n, wave, jam, capacity, &state[HELD], &mut work[ROOM]);
    let fits = at_ramps::take_releases(bytes, start, n, size.ramps, cell, &state[QUEUE], work);
    if !fits {
        let found = fault(bytes, n, k, wave, sizes, state);
        return Outcome {
            fault: found,
            ledger: l,
        };
    }
    let arrivals = fields::number(bytes, start, fields::NUMBER_SIZE);
    let speed = &rates[SPEED];
    demands(n, speed, capacity, &state[HELD], &mut work[DEMAND]);
    let ledger = next(
        n,
        size.ramps,
        size.gate_capacity,
        &rates[SHARE],
        cell,
        arrivals,
        l,
        work,
        state,
        y,
    );
    let none = Fault {
        refusal: Refusal::None,
        place: 0,
    };
    Outcome {
        fault: none,
        ledger: ledger,
    }
}
