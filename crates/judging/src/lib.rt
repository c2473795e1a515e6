// Judging: whether a proposed schedule obeys the rules of a record, step by step in its own states. History also writes these states into lent
// lists, for plots.
#![tactic(auto)]

mod verdict;

ghost use Rattle.std.specs.Prelude.{◌≡◌, true, cond, ◌+◌, ◌≤◌, length};
ghost use Rattle.model.specs.Numbers.{placed};
ghost use Rattle.model.specs.Road.{most_cells};
ghost use Rattle.model.specs.Refusals.{refusal_number, fault};
ghost use Rattle.model.specs.declared.Road.{Road};
ghost use Rattle.outflows.specs.Columns.{road_of, state_of};
ghost use Rattle.model.specs.Reading.{study_by, read_answer};
ghost use Rattle.model.specs.Listing.{most_outflows};
ghost use Rattle.model.specs.Running.{end_answer};
ghost use Rattle.model.specs.Judging.{judge_end, judging_of};
ghost use Rattle.model.specs.Demand.{AcceptsExactly};
ghost use Rattle.judging.specs.JudgedStep.{JudgeStepLent, JudgeStepGives};
ghost use Rattle.model.specs.Judging.{places_of, history_of, held_after, queue_after};
ghost use Rattle.judging.specs.WrittenStates.{held_end, queue_end, Judgeable};
ghost use Rattle.model.specs.GoingOn.{judging_on, history_on, held_on, queue_on};
ghost use Rattle.opening.specs.OpenedStudy.{OpenedReadable};
ghost use Rattle.judging.specs.JudgingEnds.{JudgeGives};

use model::{Ended, Reading, Refusal, Road, State};
use outflows::Ledger;

// The fault of a step, and the ledger after it: the ledger before it if there is a fault.
#[derive(Clone, Copy)]
struct Judged {
    refusal: Refusal,
    place: usize,
    ledger: Ledger,
}

// Judges a row of outflows, and moves every place by it if it obeys.
fn judge_step<'a>(
    n: usize,
    gate_capacity: u32,
    speed: &'a [u16; 64],
    wave: &'a [u16; 64],
    share: &'a [u16; 64],
    jam: &'a [u32; 64],
    capacity: &'a [u32; 64],
    l: Ledger,
    held: &mut [u32; 64],
    queue: &mut [u32; 64],
    cumulative: &mut [u32; 64],
    row: &[u32],
    y: &[u32],
) -> Judged
    requires { JudgeStepLent n gate_capacity speed.now wave.now share.now jam.now capacity.now
        (state_of l held.old queue.old cumulative.old) row.now y.now }
    ensures { (r : Road) → JudgeStepGives
        (road_of r n gate_capacity speed.now wave.now share.now jam.now capacity.now)
        (state_of l held.old queue.old cumulative.old) row.now y.now
        (fault (refusal_number result.refusal) result.place) (state_of result.ledger held.new queue.new cumulative.new) }
{
    let mut room = [0u32; 64];
    let q = verdict::verdict(
        n,
        gate_capacity,
        speed,
        wave,
        share,
        jam,
        capacity,
        l.gate_queue,
        l.gate_cumulative,
        held,
        queue,
        cumulative,
        row,
        &mut room,
        y,
    );
    let refusal = q.refusal;
    if refusal.number() != 0 {
        return Judged {
            refusal: refusal,
            place: q.place,
            ledger: l,
        };
    }
    let t = stepping::lent::advance(n, share, l, held, queue, cumulative, row, y);
    Judged {
        refusal: refusal,
        place: q.place,
        ledger: t,
    }
}

// If `writes`, puts a row of places into a list from `from` on: the gate's number, then each cell's.
fn put_places(writes: bool, from: usize, gate: u32, cells: &[u32; 64], n: usize, list: &mut [u32])
    requires { (n ≤ most_cells) × ((from + (n + 1) ≤ most_outflows) × (writes ≡ true → from + (n + 1) ≤ length list.old)) }
    ensures { list.new ≡ cond writes (placed list.old from (places_of gate cells.now n)) list.old }
{
    if !writes {
        return;
    }
    let mut x = gate;
    let mut i = 0;
    while i < n {
        list[from + i] = x;
        x = cells[i];
        i += 1;
    }
    list[from + n] = x;
}

// Goes through a schedule of the right length up to its first fault: 9, 10, 13 or 14. If `writes`, puts the states after the steps before the
// fault into the lists.
fn judge_rows(
    bytes: &[u8],
    table: &[u8],
    r: Road,
    s: State,
    steps: usize,
    schedule: &[u32],
    writes: bool,
    held: &mut [u32],
    queue: &mut [u32],
) -> Ended
    requires { Judgeable bytes.now (study_by bytes.now table.now r s steps) schedule.now writes held.old queue.old }
    ensures answer { end_answer result ≡ judge_end (study_by bytes.now table.now r s steps) schedule.now }
    ensures held { writes ≡ true
        → held.new ≡ held_end (study_by bytes.now table.now r s steps) schedule.now held.old }
    ensures queue { writes ≡ true
        → queue.new ≡ queue_end (study_by bytes.now table.now r s steps) schedule.now queue.old }
{
    let n = r.n;
    let mut capacity = r.capacity;
    let mut cells = s.held;
    let mut ramps = s.queue;
    let mut cumulative = s.cumulative;
    let mut l = Ledger::of(s);
    let mut row = [0u32; 129];
    let mut k = 0;
    while k < steps {
        if table.len() != 0 {
            capacity = lanes::step_capacities(r.capacity, table, n, k);
        }
        fields::read_row(bytes, n, k, &mut row);
        let from = k * (n + 1);
        let j = judge_step(
            n,
            r.gate_capacity,
            &r.speed,
            &r.wave,
            &r.share,
            &r.jam,
            &capacity,
            l,
            &mut cells,
            &mut ramps,
            &mut cumulative,
            &row[..1 + 2 * n],
            &schedule[from..from + (n + 1)],
        );
        l = j.ledger;
        let refusal = j.refusal;
        if refusal.number() != 0 {
            return Ended::at_step(refusal, k, j.place, r, l.state(cells, ramps, cumulative));
        }
        put_places(writes, from, l.gate_queue, &cells, n, held);
        put_places(writes, from, 0, &ramps, n, queue);
        k += 1;
    }
    Ended::complete(r, l.state(cells, ramps, cumulative))
}

// Judges a schedule over a record that was opened: opening's refusal, 12, and 11 if it `writes`, then as `judge_rows`.
fn judge_opened(
    a: Reading,
    bytes: &[u8],
    table: &[u8],
    schedule: &[u32],
    writes: bool,
    held: &mut [u32],
    queue: &mut [u32],
) -> Ended
    requires { OpenedReadable bytes.now table.now (read_answer a) }
    ensures { JudgeGives writes schedule.now held.old queue.old bytes.now table.now (read_answer a)
        (end_answer result) held.new queue.new }
{
    let refusal = a.refusal;
    if refusal.number() != 0 {
        return Ended::without_state(refusal, a.place);
    }
    let road = a.road;
    let state = a.state;
    let steps = a.steps;
    let size = steps * (road.n + 1);
    if schedule.len() != size {
        return Ended::without_state(Refusal::ScheduleLength, 0);
    }
    if writes & ((held.len() < size) | (queue.len() < size)) {
        return Ended::without_state(Refusal::ListLength, 0);
    }
    judge_rows(
        bytes, table, road, state, steps, schedule, writes, held, queue,
    )
}

// Judges a proposed schedule under a table of lanes: the refusals of reading, 17, 18, 12, then 9 or 10 and 13 or 14 step by step.
pub fn judge(bytes: &[u8], table: &[u8], schedule: &[u32]) -> Ended
    ensures answer { end_answer result ≡ judging_of bytes.now table.now schedule.now }
    ensures accepts { AcceptsExactly bytes.now table.now schedule.now (end_answer result) }
{
    let a = opening::opened(bytes, table);
    let mut held = [0u32; 0];
    let mut queue = [0u32; 0];
    judge_opened(a, bytes, table, schedule, false, &mut held, &mut queue)
}

// Judges a schedule of the rows of a further record from a state: the refusals of reading, 17, 18, 7, 8, 12, then as judging, with the step
// counted in these rows.
pub fn judge_on(bytes: &[u8], table: &[u8], from: State, schedule: &[u32]) -> Ended
    ensures { end_answer result ≡ judging_on bytes.now table.now from schedule.now }
{
    let a = opening::started(bytes, table, from);
    let mut held = [0u32; 0];
    let mut queue = [0u32; 0];
    judge_opened(a, bytes, table, schedule, false, &mut held, &mut queue)
}

// Judges a schedule under a table of lanes and writes its states: the refusals of reading, 17, 18, 12, 11, then as judging.
pub fn history(
    bytes: &[u8],
    table: &[u8],
    schedule: &[u32],
    held: &mut [u32],
    queue: &mut [u32],
) -> Ended
    ensures answer { end_answer result ≡ history_of bytes.now table.now schedule.now held.old queue.old }
    ensures held { held.new ≡ held_after bytes.now table.now schedule.now held.old queue.old }
    ensures queue { queue.new ≡ queue_after bytes.now table.now schedule.now held.old queue.old }
{
    let a = opening::opened(bytes, table);
    judge_opened(a, bytes, table, schedule, true, held, queue)
}

// The same for a schedule that goes on from a state: the refusals of reading, 17, 18, 7, 8, 12, 11, then as judging.
pub fn history_on(
    bytes: &[u8],
    table: &[u8],
    from: State,
    schedule: &[u32],
    held: &mut [u32],
    queue: &mut [u32],
) -> Ended
    ensures answer { end_answer result ≡ history_on bytes.now table.now from schedule.now held.old queue.old }
    ensures held { held.new ≡ held_on bytes.now table.now from schedule.now held.old queue.old }
    ensures queue { queue.new ≡ queue_on bytes.now table.now from schedule.now held.old queue.old }
{
    let a = opening::started(bytes, table, from);
    judge_opened(a, bytes, table, schedule, true, held, queue)
}
