// Present, exits and present with weights of a state; the total in vehicle-seconds; and the longest queues of a run.
#![tactic(auto)]

ghost use Rattle.std.specs.Prelude.{◌≡◌, min, ◌-◌, ◌^◌, ◌≤◌, ◌<◌, ◌+◌, ◌*◌, max, take, length, cond};
ghost use Rattle.model.specs.Road.{most_long, most_cells, without_state};
ghost use Rattle.model.specs.Words.{vehicle_seconds, vehicle_seconds_of};
ghost use Rattle.model.specs.Numbers.{sum_of, at, fill_of};
ghost use Rattle.model.specs.Flow.{onward_of};
ghost use Rattle.model.specs.Move.{held_sum, queue_sum, present_of, exits_of};
ghost use Rattle.model.specs.declared.State.{State};
ghost use Rattle.model.specs.Weights.{weighted_sum, weighted_present};
ghost use Rattle.passes.specs.Tables.{held_col, queue_col};
ghost use Rattle.counts.specs.WeightBounds.{most_product, most_weighted_present, most_weighted_total};
ghost use Rattle.counts.specs.WeightSums.{Waiting};
ghost use Rattle.model.specs.Longest.{queues_of, longest_queues};
ghost use Rattle.counts.specs.Longest.{no_queues};
ghost use Rattle.counts.specs.LongestLaws.{longest_after};

use model::{Ended, Longest, Refusal, Road, State, Weights};
use numbers::wide;
use outflows::Ledger;
use passes::{HELD, QUEUE};

// A vehicle's parts.
const PARTS: u64 = 1000;

// Part-steps of so many seconds in vehicle-seconds, rounded down: whole vehicles and the rest are multiplied separately, so that no product wraps.
fn in_seconds(total: u64, seconds: u16) -> u64
    ensures { result ≡ min (vehicle_seconds total seconds) most_long }
{
    let wide = seconds as u64;
    if wide == 0 {
        return 0;
    }
    let vehicles = total / PARTS;
    let rest = total % PARTS * wide / PARTS;
    if (Road::LONG - rest) / wide < vehicles {
        return Road::LONG;
    }
    vehicles * wide + rest
}

// The total of `total` × seconds ÷ 1,000, rounded down, at most the greatest number of 64 bits.
pub fn vehicle_seconds(seconds: u16, state: State) -> u64
    ensures { result ≡ vehicle_seconds_of seconds state }
{
    in_seconds(state.total(), seconds)
}

// How many entries of an array belong to cells: at most 64.
pub fn cells(n: usize) -> usize
    ensures { result ≡ min n most_cells }
{
    if n <= Road::CELLS { n } else { Road::CELLS }
}

// The sum of the counts of all cells; n above 64 counts as 64.
fn of_cells(counts: [u32; 64], n: usize) -> u64
    ensures { (result ≡ sum_of (take n counts)) × (result < 2 ^ 38) }
{
    let k = cells(n);
    numbers::sum(&counts[..k])
}

// Present on the road: all held counts.
pub fn on_road(r: Road, s: State) -> u64
    ensures { (result ≡ held_sum r s) × (result < 2 ^ 38) }
{
    let held = s.held;
    of_cells(held, r.n)
}

// Present at the ramps: all ramp queues.
pub fn at_ramps(r: Road, s: State) -> u64
    ensures { (result ≡ queue_sum r s) × (result < 2 ^ 38) }
{
    let queue = s.queue;
    of_cells(queue, r.n)
}

// The gate queue, all held counts and all ramp queues together.
pub fn present(r: Road, s: State) -> u64
    ensures { result ≡ present_of r s }
{
    let held = on_road(r, s);
    let queues = at_ramps(r, s);
    wide(s.gate_queue) + held + queues
}

// The exits of a cell: F less the onward total; 0 if the share is above 1,000.
fn exit(share: u16, cumulative: u32) -> u64
    ensures { (result ≡ cumulative - onward_of share cumulative) × (result ≤ 4294967295) }
{
    let onward = flow::onward(share, cumulative);
    let out = wide(cumulative);
    if onward < out { out - onward } else { 0 }
}

// The sum over the cells of F less the onward total; n above 64 counts as 64.
pub fn exits(r: Road, s: State) -> u64
    ensures { result ≡ exits_of r s }
{
    let n = cells(r.n);
    let mut sum: u64 = 0;
    let mut i = 0;
    while i < n {
        sum += exit(r.share[i], s.cumulative[i]);
        i += 1;
    }
    sum
}

// A count times its weight.
fn weighted_count(weight: u8, count: u32) -> u64
    ensures { (result ≡ weight * count) × (result ≤ most_product) }
{
    weight as u64 * count as u64
}

// The counts of the first n cells, each times its weight; the first cell's weight is at `from`.
fn weighted_cells(weights: &[u8], from: usize, counts: &[u32], n: usize) -> u64
    requires { (n ≤ most_cells) × ((n ≤ length counts.now) × (from + n ≤ length weights.now)) }
    ensures { (result ≡ weighted_sum (λ i. at weights.now (from + i)) (at counts.now) n) × (result ≤ most_cells * most_product) }
{
    let mut sum: u64 = 0;
    let mut i = 0;
    while i < n {
        sum += weighted_count(weights[from + i], counts[i]);
        i += 1;
    }
    sum
}

// The gate queue, all held counts and all ramp queues, each times its weight, on lent columns.
fn weighted_places<'a, 'b>(
    n: usize,
    gate_queue: u32,
    held: &'a [u32; 64],
    queue: &'a [u32; 64],
    places: &'b [u8; 65],
    ramps: &'b [u8; 64],
) -> u64
    requires { n ≤ most_cells }
    ensures present { (s : State) → Waiting gate_queue held.now queue.now s
        → result ≡ weighted_present (at places.now) (at ramps.now) n s }
    ensures bound { result ≤ most_weighted_present }
{
    let gate = weighted_count(places[0], gate_queue);
    let road = weighted_cells(places, 1, held, n);
    let ramp = weighted_cells(ramps, 0, queue, n);
    gate + road + ramp
}

// The gate queue, all held counts and all ramp queues, each times its weight; n above 64 counts as 64.
pub fn weighted(r: Road, s: State, weights: Weights) -> u64
    ensures { result ≡ weighted_present (at weights.places) (at weights.ramps) r.n s }
{
    let n = cells(r.n);
    weighted_places(
        n,
        s.gate_queue,
        &s.held,
        &s.queue,
        &weights.places,
        &weights.ramps,
    )
}

// A weighted total with the weighted present after one more step, on a lent table of columns; unchanged if no weights are wanted.
pub fn added<'a, 'b>(
    total: u64,
    sums: bool,
    n: usize,
    l: Ledger,
    state: &'a [[u32; 64]; 4],
    places: &'b [u8; 65],
    ramps: &'b [u8; 64],
) -> u64
    requires { (total ≤ most_weighted_total) × (n ≤ most_cells) }
    ensures sum { (s : State) → Waiting l.gate_queue (held_col state.now) (queue_col state.now) s
        → result ≡ total + cond sums (weighted_present (at places.now) (at ramps.now) n s) 0 }
    ensures bound { result ≤ total + most_weighted_present }
{
    if sums {
        let held = &state[HELD];
        return total + weighted_places(n, l.gate_queue, held, &state[QUEUE], places, ramps);
    }
    total
}

// The longest gate queues so far, with and without the step's arrivals.
#[derive(Clone, Copy)]
pub struct AtGate {
    pub gate: u32,
    pub waiting: u32,
}

// The longest gate queues before the first step.
pub fn no_queue() -> AtGate
    ensures { (result.gate ≡ 0) × (result.waiting ≡ 0) }
{
    AtGate {
        gate: 0,
        waiting: 0,
    }
}

fn less(a: u32, b: u32) -> u32
    ensures { result ≡ a - b }
{
    if b < a { a - b } else { 0 }
}

fn larger(a: u32, b: u32) -> u32
    ensures { result ≡ max a b }
{
    if a < b { b } else { a }
}

// Raises the longest queues of the first n cells to the queues given.
fn raise_ramps(n: usize, queue: &[u32; 64], ramps: &mut [u32; 64])
    requires { n ≤ most_cells }
    ensures { ramps.new ≡ fill_of (λ i. max (at ramps.old i) (at queue.now i)) n ramps.old }
{
    let mut i = 0;
    while i < n {
        ramps[i] = larger(ramps[i], queue[i]);
        i += 1;
    }
}

// The longest queues after one more step, on a lent column; `before` and `after` are the ledgers of the states around the step.
pub fn raised(
    known: AtGate,
    before: Ledger,
    after: Ledger,
    n: usize,
    queue: &[u32; 64],
    ramps: &mut [u32; 64],
) -> AtGate
    requires { n ≤ most_cells }
    ensures { queues_of result.gate result.waiting ramps.new ≡ longest_after n (queues_of known.gate known.waiting ramps.old)
        (before.gate_queue - (after.gate_cumulative - before.gate_cumulative)) after.gate_queue queue.now }
{
    raise_ramps(n, queue, ramps);
    let sent = less(after.gate_cumulative, before.gate_cumulative);
    AtGate {
        gate: larger(known.gate, after.gate_queue),
        waiting: larger(known.waiting, less(before.gate_queue, sent)),
    }
}

// An answer with its longest queues.
pub fn longest(ended: Ended, gate: AtGate, ramps: [u32; 64]) -> Longest
    ensures { (result.ended ≡ ended) × (longest_queues result ≡ queues_of gate.gate gate.waiting ramps) }
{
    Longest {
        ended: ended,
        gate: gate.gate,
        waiting: gate.waiting,
        ramps: ramps,
    }
}

// A refusal that names no state, without a step done.
pub fn unbegun(refusal: Refusal, place: usize) -> Longest
    ensures { (result.ended ≡ without_state refusal place) × (longest_queues result ≡ no_queues) }
{
    let ended = Ended::without_state(refusal, place);
    Longest {
        ended: ended,
        gate: 0,
        waiting: 0,
        ramps: [0; 64],
    }
}
