// The engine's outflows and the test of the releases, on a road and a state that are lent column by column, so that nothing is copied.
ghost use Rattle.std.specs.Prelude.{◌≡◌, List, ℕ, ◌+◌, ◌≤◌, ◌*◌, length};
ghost use Rattle.model.specs.Road.{most_cells};
ghost use Rattle.model.specs.declared.Road.{Road};
ghost use Rattle.model.specs.Schedules.{outflows_of};
ghost use Rattle.outflows.specs.declared.Ledger.{Ledger};
ghost use Rattle.outflows.specs.Columns.{with_demands, with_gate, state_of, with_supplies};
ghost use Rattle.outflows.specs.Rooms.{Rooms};
ghost use Rattle.model.specs.Stepping.{releases_of};
ghost use Rattle.model.specs.Refusals.{fault_answer};

use model::{Fault, Refusal, Road};

// Fills a row with the engine's outflows, gate first; `room` holds the room of each cell.
pub fn outflows<'a, 'b>(
    n: usize,
    gate_capacity: u32,
    speed: &'a [u16; 64],
    share: &'a [u16; 64],
    capacity: &'a [u32; 64],
    gate_queue: u32,
    gate_cumulative: u32,
    held: &'b [u32; 64],
    cumulative: &'b [u32; 64],
    room: &[u32; 64],
    y: &mut [u32],
)
    requires { (n ≤ most_cells) × (length y.old ≡ n + 1) }
    ensures { (r : Road) (l : Ledger) (queue row : List ℕ)
        → Rooms (with_demands r n gate_capacity speed.now share.now capacity.now)
        (state_of (with_gate l gate_queue gate_cumulative) held.now queue cumulative.now) row room.now
        → y.new ≡ outflows_of (with_demands r n gate_capacity speed.now share.now capacity.now)
        (state_of (with_gate l gate_queue gate_cumulative) held.now queue cumulative.now) row }
{
    let mut part = Road::WHOLE;
    let mut before = gate_cumulative;
    let mut demand = flow::gate_demand(gate_capacity, gate_queue);
    let mut i = 0;
    while i < n {
        y[i] = flow::outflow(part, before, room[i], demand);
        part = share[i];
        before = cumulative[i];
        demand = flow::demand(speed[i], capacity[i], held[i]);
        i += 1;
    }
    y[n] = demand;
}

// The lowest cell whose release does not fit, with its refusal. If all fit, `room` holds the room of each cell afterwards.
pub fn releases<'a, 'b>(
    n: usize,
    wave: &'a [u16; 64],
    jam: &'a [u32; 64],
    capacity: &'a [u32; 64],
    held: &'b [u32; 64],
    queue: &'b [u32; 64],
    row: &[u32],
    room: &mut [u32; 64],
) -> Fault
    requires { (n ≤ most_cells) × ((length row.now ≡ 1 + 2 * n) × (length room.old ≡ most_cells)) }
    ensures fault { (r : Road) (l : Ledger) (cumulative : List ℕ) → fault_answer result
        ≡ releases_of (with_supplies r n wave.now jam.now capacity.now)
        (state_of l held.now queue.now cumulative) row.now }
    ensures rooms { (r : Road) (l : Ledger) (cumulative : List ℕ) → (fault_answer result).number ≡ 0
        → Rooms (with_supplies r n wave.now jam.now capacity.now)
        (state_of l held.now queue.now cumulative) row.now room.new }
    ensures length { length room.new ≡ most_cells }
{
    let mut i = 0;
    while i < n {
        let release = row[2 * i + 2];
        let supply = flow::supply(wave[i], capacity[i], jam[i], held[i]);
        let most = flow::most_release(queue[i], row[2 * i + 1]);
        let refusal = crate::release_refusal(release, most, supply);
        if refusal.number() != 0 {
            return Fault {
                refusal: refusal,
                place: i + 1,
            };
        }
        room[i] = flow::room(supply, release);
        i += 1;
    }
    Fault {
        refusal: Refusal::None,
        place: 0,
    }
}
