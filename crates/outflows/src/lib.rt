// A road and a state whose columns are lent; the releases of a row, 9 and 10; the engine's outflows.
#![tactic(auto)]

pub mod lent;

ghost use Rattle.std.specs.Prelude.{◌≡◌, ◌+◌, ◌*◌, ◌≤◌, length};
ghost use Rattle.outflows.specs.Columns.{ledger_of, state_of};
ghost use Rattle.model.specs.Road.{most_cells};
ghost use Rattle.model.specs.Refusals.{refusal_number, fault_answer};
ghost use Rattle.model.specs.Stepping.{release_fault, releases_of};

use model::{Fault, Refusal, Road, State};

// What a state holds besides its columns: the steps done, the three times, the gate's queue and its F.
#[derive(Clone, Copy)]
pub struct Ledger {
    pub done: usize,
    pub gate_time: u64,
    pub road_time: u64,
    pub ramp_time: u64,
    pub gate_queue: u32,
    pub gate_cumulative: u32,
}

impl Ledger {
    // The ledger of a state.
    pub fn of(s: State) -> Ledger
        ensures { result ≡ ledger_of s }
    {
        Ledger {
            done: s.done,
            gate_time: s.gate_time,
            road_time: s.road_time,
            ramp_time: s.ramp_time,
            gate_queue: s.gate_queue,
            gate_cumulative: s.gate_cumulative,
        }
    }

    // The state of this ledger and these columns.
    pub fn state(self, held: [u32; 64], queue: [u32; 64], cumulative: [u32; 64]) -> State
        ensures { result ≡ state_of self held queue cumulative }
    {
        State {
            done: self.done,
            gate_time: self.gate_time,
            road_time: self.road_time,
            ramp_time: self.ramp_time,
            gate_queue: self.gate_queue,
            gate_cumulative: self.gate_cumulative,
            held: held,
            queue: queue,
            cumulative: cumulative,
        }
    }
}

// The refusal of one cell's release: 9 above `most`, then 10 above the supply.
pub fn release_refusal(release: u32, most: u64, supply: u32) -> Refusal
    ensures { refusal_number result ≡ release_fault release most supply }
{
    if most < release as u64 {
        return Refusal::ReleaseAboveQueue;
    }
    if supply < release {
        return Refusal::ReleaseAboveSupply;
    }
    Refusal::None
}

// The lowest cell whose release does not fit, with its refusal.
pub fn releases(r: Road, s: State, row: &[u32]) -> Fault
    requires { (r.n ≤ most_cells) × (length row.now ≡ 1 + 2 * r.n) }
    ensures { fault_answer result ≡ releases_of r s row.now }
{
    let mut room = [0u32; 64];
    lent::releases(
        r.n,
        &r.wave,
        &r.jam,
        &r.capacity,
        &s.held,
        &s.queue,
        row,
        &mut room,
    )
}
