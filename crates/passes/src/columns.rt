// The columns that a step works on, in tables: the rates and the sizes of a road, the columns of a state, and those that the passes fill.
ghost use Rattle.std.specs.Prelude.{◌≡◌, [], ◌∷◌, ◌≤◌, length};
ghost use Rattle.model.specs.Numbers.{fill_of};
ghost use Rattle.model.specs.Road.{most_cells, zeros};
ghost use Rattle.passes.specs.Tables.{state_in};
ghost use Rattle.passes.specs.Supplies.{NoRamp};
ghost use Rattle.passes.specs.RampList.{Listed, AtRamps};
ghost use Rattle.passes.specs.Rest.{rest_in};

use model::{Road, State};
use outflows::Ledger;

// The rates of a road, in thousandths.
pub const SPEED: usize = 0;

pub const WAVE: usize = 1;

pub const SHARE: usize = 2;
// Its sizes: jam counts and capacities, and the list of its cells with a ramp.
pub const JAM: usize = 0;

pub const CAPACITY: usize = 1;

pub const CELL: usize = 2;
// The counts of a state, and the remainders of b x F by 1,000.
pub const HELD: usize = 0;

pub const QUEUE: usize = 1;

pub const CUMULATIVE: usize = 2;

pub const REST: usize = 3;
// What the passes fill: rooms, each ramp's release and its queue after it, demands; and, in filling, what had come into each cell.
pub const ROOM: usize = 0;

pub const RELEASE: usize = 1;

pub const WAITING: usize = 2;

pub const DEMAND: usize = 3;

pub const CAME: usize = 4;

// The numbers of a road that are no columns.
#[derive(Clone, Copy)]
pub struct Size {
    pub n: usize,
    pub ramps: usize,
    pub gate_capacity: u32,
}

// The rates of a road.
pub fn rates(r: Road) -> [[u16; 64]; 3]
    ensures { result ≡ r.speed ∷ r.wave ∷ r.share ∷ [] }
{
    let speed = r.speed;
    let wave = r.wave;
    let share = r.share;
    [speed, wave, share]
}

// The sizes of a road, with room for the list of its cells with a ramp.
pub fn sizes(r: Road) -> [[u32; 64]; 3]
    ensures { result ≡ r.jam ∷ r.capacity ∷ zeros ∷ [] }
{
    let jam = r.jam;
    let capacity = r.capacity;
    let cell = [0u32; 64];
    [jam, capacity, cell]
}

// Lists the cells with a ramp, lowest first, and returns the road's size.
pub fn list_ramps(r: Road, cell: &mut [u32; 64]) -> Size
    requires { (r.n ≤ most_cells) × (length cell.old ≡ most_cells) }
    ensures { ((result.n ≡ r.n) × (result.gate_capacity ≡ r.gate_capacity))
        × (Listed (NoRamp r.ramp) r.n result.ramps cell.new
        × ((AtRamps r.ramp result.ramps cell.new) × (length cell.new ≡ most_cells))) }
{
    let ramps = crate::at_ramps::ramp_cells(r.n, &r.ramp, cell);
    Size {
        n: r.n,
        ramps: ramps,
        gate_capacity: r.gate_capacity,
    }
}

// The columns of a state on a road.
pub fn of_state(r: Road, s: State) -> [[u32; 64]; 4]
    requires { r.n ≤ most_cells }
    ensures { result ≡ s.held ∷ s.queue ∷ s.cumulative ∷ fill_of (rest_in r.share s.cumulative) r.n zeros ∷ [] }
{
    let mut rest = [0u32; 64];
    crate::sending::remainders(r.n, &r.share, &s.cumulative, &mut rest);
    let held = s.held;
    let queue = s.queue;
    let cumulative = s.cumulative;
    [held, queue, cumulative, rest]
}

// The state of a ledger and a table of columns.
pub fn to_state(l: Ledger, state: [[u32; 64]; 4]) -> State
    ensures { result ≡ state_in l state }
{
    let held = state[HELD];
    let queue = state[QUEUE];
    let cumulative = state[CUMULATIVE];
    l.state(held, queue, cumulative)
}
