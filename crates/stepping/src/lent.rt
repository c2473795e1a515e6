// A step in place on a road and a state that are lent column by column, so that nothing is copied: the move by a row of outflows, and the count.
ghost use Rattle.std.specs.Prelude.{◌≡◌};
ghost use Rattle.model.specs.declared.Road.{Road};
ghost use Rattle.model.specs.Move.{next_of};
ghost use Rattle.outflows.specs.Columns.{with_share_column, state_of, with_demands};
ghost use Rattle.stepping.specs.LentColumns.{AdvanceLent, engine_next};
ghost use Rattle.model.specs.Schedules.{outflows_of};
ghost use Rattle.outflows.specs.Rooms.{Rooms};
ghost use Rattle.stepping.specs.EngineStep.{EngineStepLent};

use model::Road;
use numbers::wide;
use outflows::Ledger;

// Moves every place by a row of outflows that obeys the rules, and counts the step: held counts and ramp queues are added while the cells
// are moved.
pub fn advance(
    n: usize,
    share: &[u16; 64],
    l: Ledger,
    held: &mut [u32; 64],
    queue: &mut [u32; 64],
    cumulative: &mut [u32; 64],
    row: &[u32],
    y: &[u32],
) -> Ledger
    requires { AdvanceLent n share.now l held.old queue.old cumulative.old row.now y.now }
    ensures { (r : Road) → state_of result held.new queue.new cumulative.new
        ≡ next_of (with_share_column r n share.now)
        (state_of l held.old queue.old cumulative.old) row.now y.now }
{
    let first = y[0];
    let waiting = l.gate_queue + row[0] - first;
    let mut entering = flow::entering(Road::WHOLE, l.gate_cumulative, first);
    let mut on_road: u64 = 0;
    let mut at_ramps: u64 = 0;
    let mut i = 0;
    while i < n {
        let release = row[2 * i + 2];
        let outflow = y[i + 1];
        let before = cumulative[i];
        let holds = held[i] + (entering as u32) + release - outflow;
        let waits = queue[i] + row[2 * i + 1] - release;
        held[i] = holds;
        queue[i] = waits;
        cumulative[i] = before + outflow;
        on_road += wide(holds);
        at_ramps += wide(waits);
        entering = flow::entering(share[i], before, outflow);
        i += 1;
    }
    Ledger {
        done: l.done + 1,
        gate_time: l.gate_time + wide(waiting),
        road_time: l.road_time + on_road,
        ramp_time: l.ramp_time + at_ramps,
        gate_queue: waiting,
        gate_cumulative: l.gate_cumulative + first,
    }
}

// Fills a row with the engine's outflows from the rooms of the cells, moves every place by it and counts the step.
pub fn next<'a>(
    n: usize,
    gate_capacity: u32,
    speed: &'a [u16; 64],
    share: &'a [u16; 64],
    capacity: &'a [u32; 64],
    l: Ledger,
    held: &mut [u32; 64],
    queue: &mut [u32; 64],
    cumulative: &mut [u32; 64],
    row: &[u32],
    room: &[u32; 64],
    y: &mut [u32],
) -> Ledger
    requires { EngineStepLent n gate_capacity speed.now share.now capacity.now
        (state_of l held.old queue.old cumulative.old) row.now room.now y.old }
    ensures state { (r : Road) → Rooms (with_demands r n gate_capacity speed.now share.now capacity.now)
        (state_of l held.old queue.old cumulative.old) row.now room.now
        → state_of result held.new queue.new cumulative.new
        ≡ engine_next (with_demands r n gate_capacity speed.now share.now capacity.now)
        (state_of l held.old queue.old cumulative.old) row.now }
    ensures row { (r : Road) → Rooms (with_demands r n gate_capacity speed.now share.now capacity.now)
        (state_of l held.old queue.old cumulative.old) row.now room.now
        → y.new ≡ outflows_of (with_demands r n gate_capacity speed.now share.now capacity.now)
        (state_of l held.old queue.old cumulative.old) row.now }
{
    outflows::lent::outflows(
        n,
        gate_capacity,
        speed,
        share,
        capacity,
        l.gate_queue,
        l.gate_cumulative,
        held,
        cumulative,
        room,
        y,
    );
    advance(n, share, l, held, queue, cumulative, row, y)
}
