// What judging says of one row: 9 and 10 as in stepping, then 13 and 14. Road and state are lent column by column, so that judging
// copies neither.
ghost use Rattle.std.specs.Prelude.{◌≡◌, List, ℕ, ◌+◌, ◌≤◌, length};
ghost use Rattle.model.specs.Road.{most_cells};
ghost use Rattle.model.specs.declared.Road.{Road};
ghost use Rattle.model.specs.Judging.{outflow_fault, outflows_fault_of, verdict_of};
ghost use Rattle.outflows.specs.declared.Ledger.{Ledger};
ghost use Rattle.outflows.specs.Columns.{road_of, with_demands, with_gate, state_of};
ghost use Rattle.outflows.specs.Rooms.{Rooms};
ghost use Rattle.model.specs.Refusals.{refusal_number, fault_answer};
ghost use Rattle.judging.specs.ProposedRow.{RowLengths};

use model::{Fault, Refusal, Road};

// The refusal of one place's outflow: 13 above its demand, then 14 if more than the room enters the next cell.
fn outflow_refusal(outflow: u32, demand: u32, entering: u64, room: u32) -> Refusal
    ensures { refusal_number result ≡ outflow_fault outflow demand entering room }
{
    if demand < outflow {
        return Refusal::OutflowAboveDemand;
    }
    if (room as u64) < entering {
        return Refusal::EnteringAboveRoom;
    }
    Refusal::None
}

// The lowest place whose outflow does not obey, with its refusal; `room` holds the room of each cell. At the last place, which no cell
// follows, only the demand is tested.
fn outflows_fault<'a, 'b>(
    n: usize,
    gate_capacity: u32,
    speed: &'a [u16; 64],
    share: &'a [u16; 64],
    capacity: &'a [u32; 64],
    gate_queue: u32,
    gate_cumulative: u32,
    held: &'b [u32; 64],
    cumulative: &'b [u32; 64],
    room: &[u32; 64],
    y: &[u32],
) -> Fault
    requires { (n ≤ most_cells) × (length y.now ≡ n + 1) }
    ensures { (r : Road) (l : Ledger) (queue row : List ℕ)
        → Rooms (with_demands r n gate_capacity speed.now share.now capacity.now)
        (state_of (with_gate l gate_queue gate_cumulative) held.now queue cumulative.now) row room.now
        → fault_answer result ≡ outflows_fault_of (with_demands r n gate_capacity speed.now share.now capacity.now)
        (state_of (with_gate l gate_queue gate_cumulative) held.now queue cumulative.now) row y.now }
{
    let mut part = Road::WHOLE;
    let mut before = gate_cumulative;
    let mut demand = flow::gate_demand(gate_capacity, gate_queue);
    let mut i = 0;
    while i < n {
        let outflow = y[i];
        let entering = flow::entering(part, before, outflow);
        let refusal = outflow_refusal(outflow, demand, entering, room[i]);
        if refusal.number() != 0 {
            return Fault {
                refusal: refusal,
                place: i,
            };
        }
        part = share[i];
        before = cumulative[i];
        demand = flow::demand(speed[i], capacity[i], held[i]);
        i += 1;
    }
    if demand < y[n] {
        return Fault {
            refusal: Refusal::OutflowAboveDemand,
            place: n,
        };
    }
    Fault {
        refusal: Refusal::None,
        place: 0,
    }
}

// The verdict on a row: its releases, then its outflows. The test of the releases stores the rooms in `room`, which is lent for this.
pub fn verdict<'a, 'b>(
    n: usize,
    gate_capacity: u32,
    speed: &'a [u16; 64],
    wave: &'a [u16; 64],
    share: &'a [u16; 64],
    jam: &'a [u32; 64],
    capacity: &'a [u32; 64],
    gate_queue: u32,
    gate_cumulative: u32,
    held: &'b [u32; 64],
    queue: &'b [u32; 64],
    cumulative: &'b [u32; 64],
    row: &[u32],
    room: &mut [u32; 64],
    y: &[u32],
) -> Fault
    requires { (RowLengths n row.now y.now) × (length room.old ≡ most_cells) }
    ensures fault { (r : Road) (l : Ledger) → fault_answer result
        ≡ verdict_of (road_of r n gate_capacity speed.now wave.now share.now jam.now capacity.now)
        (state_of (with_gate l gate_queue gate_cumulative) held.now queue.now cumulative.now) row.now y.now }
    ensures length { length room.new ≡ most_cells }
{
    let q = outflows::lent::releases(n, wave, jam, capacity, held, queue, row, room);
    let refusal = q.refusal;
    if refusal.number() != 0 {
        return q;
    }
    outflows_fault(
        n,
        gate_capacity,
        speed,
        share,
        capacity,
        gate_queue,
        gate_cumulative,
        held,
        cumulative,
        room,
        y,
    )
}
