// Running: the engine's outflows of every step of a record, written into a lent list.
#![tactic(auto)]

ghost use Rattle.std.specs.Prelude.{◌≡◌, true};
ghost use Rattle.model.specs.Numbers.{at};
ghost use Rattle.model.specs.Road.{without_state};
ghost use Rattle.counts.specs.Longest.{no_queues};
ghost use Rattle.model.specs.Longest.{queues_of, longest_queues, longest_run};
ghost use Rattle.counts.specs.LongestRun.{longest_end};
ghost use Rattle.model.specs.Reading.{study_by, read_answer};
ghost use Rattle.model.specs.Running.{end_answer, run_end, running_of, list_after};
ghost use Rattle.theory.specs.SchedulesLaws.{run_table};
ghost use Rattle.model.specs.Demand.{Openable, DemandAndGrounds, WeightedDemand};
ghost use Rattle.model.specs.Weights.{weighted_total_of_run};
ghost use Rattle.model.specs.GoingOn.{running_on, list_on, weighted_total_on, longest_on};
ghost use Rattle.running.specs.LentList.{Runnable};
ghost use Rattle.running.specs.WeightedTotal.{weighted_total_end};
ghost use Rattle.opening.specs.OpenedStudy.{OpenedReadable};
ghost use Rattle.running.specs.Promise.{RunGives};

use counts::AtGate;
use model::{Ended, Longest, Reading, Refusal, Road, State, Tallied, Weighed, Weights};
use outflows::Ledger;
use passes::{CAPACITY, CELL, QUEUE};

// A run's answer with its longest queues and its weighted total.
fn tallied(ended: Ended, gate: AtGate, ramps: [u32; 64], weighted: u64) -> Tallied
    ensures { (result.longest.ended ≡ ended) × ((longest_queues result.longest ≡ queues_of gate.gate gate.waiting ramps) × (result.weighted ≡ weighted)) }
{
    let longest = counts::longest(ended, gate, ramps);
    Tallied {
        longest: longest,
        weighted: weighted,
    }
}

// Writes the rows of the steps before the first fault, 9 or 10; with the weighted total if `sums`, and the longest queues if `longs`.
fn run_rows(
    bytes: &[u8],
    table: &[u8],
    r: Road,
    s: State,
    steps: usize,
    weights: Weights,
    sums: bool,
    longs: bool,
    out: &mut [u32],
) -> Tallied
    requires { Runnable bytes.now (study_by bytes.now table.now r s steps) out.old }
    ensures answer { end_answer result.longest.ended ≡ run_end (study_by bytes.now table.now r s steps) }
    ensures list { out.new ≡ run_table (study_by bytes.now table.now r s steps) out.old }
    ensures weighted { result.weighted
        ≡ weighted_total_end sums (at weights.places) (at weights.ramps) (study_by bytes.now table.now r s steps) }
    ensures longest { longs ≡ true → longest_queues result.longest ≡ longest_end (study_by bytes.now table.now r s steps) }
{
    let n = r.n;
    let places = n + 1;
    let capacity = r.capacity;
    let rates = passes::rates(r);
    let mut sizes = passes::sizes(r);
    let size = passes::list_ramps(r, &mut sizes[CELL]);
    let mut state = passes::of_state(r, s);
    let mut work = [[0u32; 65]; 5];
    let mut l = Ledger::of(s);
    let mut gate = counts::no_queue();
    let mut most = [0u32; 64];
    let mut total: u64 = 0;
    let mut k = 0;
    let mut to = 0;
    while k < steps {
        if table.len() != 0 {
            let open_now = lanes::step_capacities(capacity, table, n, k);
            sizes[CAPACITY] = open_now;
        }
        let end = to + places;
        let y = &mut out[to..end];
        let step = passes::step(bytes, k, size, &rates, &sizes, l, &mut state, &mut work, y);
        let fault = step.fault;
        let refusal = fault.refusal;
        if refusal.number() != 0 {
            let ended = Ended::at_step(refusal, k, fault.place, r, passes::to_state(l, state));
            return tallied(ended, gate, most, total);
        }
        let new = step.ledger;
        total = counts::added(total, sums, n, new, &state, &weights.places, &weights.ramps);
        if longs {
            gate = counts::raised(gate, l, new, n, &state[QUEUE], &mut most);
        }
        l = new;
        to = end;
        k += 1;
    }
    let ended = Ended::complete(r, passes::to_state(l, state));
    tallied(ended, gate, most, total)
}

// A refusal that names no state, without a step done.
fn unbegun(refusal: Refusal, place: usize) -> Tallied
    ensures { (result.longest.ended ≡ without_state refusal place) × ((longest_queues result.longest ≡ no_queues) × (result.weighted ≡ 0)) }
{
    let longest = counts::unbegun(refusal, place);
    Tallied {
        longest: longest,
        weighted: 0,
    }
}

// Runs a record that was opened, with the weighted total if `sums` and the longest queues if `longs`: opening's refusal, 11, then as `run_rows`.
fn run_opened(
    a: Reading,
    bytes: &[u8],
    table: &[u8],
    weights: Weights,
    sums: bool,
    longs: bool,
    out: &mut [u32],
) -> Tallied
    requires { OpenedReadable bytes.now table.now (read_answer a) }
    ensures { RunGives sums longs (at weights.places) (at weights.ramps) out.old bytes.now table.now (read_answer a)
        (end_answer result.longest.ended) out.new result.weighted (longest_queues result.longest) }
{
    let refusal = a.refusal;
    if refusal.number() != 0 {
        return unbegun(refusal, a.place);
    }
    let road = a.road;
    let state = a.state;
    let steps = a.steps;
    if out.len() < steps * (road.n + 1) {
        return unbegun(Refusal::ListLength, 0);
    }
    run_rows(bytes, table, road, state, steps, weights, sums, longs, out)
}

// Runs the rows of a further record from a state, with its longest queues and its weighted total: the refusals of reading, 17, 18, 7, 8, 11, then
// 9 or 10 with its step, counted in these rows, and its cell.
pub fn run_on(bytes: &[u8], table: &[u8], weights: Weights, from: State, out: &mut [u32]) -> Tallied
    ensures answer { end_answer result.longest.ended ≡ running_on bytes.now table.now from out.old }
    ensures list { out.new ≡ list_on bytes.now table.now from out.old }
    ensures weighted { result.weighted
        ≡ weighted_total_on (at weights.places) (at weights.ramps) bytes.now table.now from out.old }
    ensures longest { longest_queues result.longest ≡ longest_on bytes.now table.now from out.old }
{
    let a = opening::started(bytes, table, from);
    run_opened(a, bytes, table, weights, true, true, out)
}

// Runs a record under a table of lanes: the refusals of reading, 17, 18, 11, then 9 or 10 with its step and cell.
pub fn run(bytes: &[u8], table: &[u8], out: &mut [u32]) -> Ended
    ensures answer { end_answer result ≡ running_of bytes.now table.now out.old }
    ensures list { out.new ≡ list_after bytes.now table.now out.old }
    ensures demand { Openable bytes.now table.now → DemandAndGrounds bytes.now table.now out.new (end_answer result) }
{
    let weights = Weights {
        places: [0; 65],
        ramps: [0; 64],
    };
    let a = opening::opened(bytes, table);
    let tallied = run_opened(a, bytes, table, weights, false, false, out);
    tallied.longest.ended
}

// Runs a record with weights of waiting: running's answer and list, and the weighted sum of present over the steps done.
pub fn run_weighted(bytes: &[u8], table: &[u8], weights: Weights, out: &mut [u32]) -> Weighed
    ensures answer { end_answer result.ended ≡ running_of bytes.now table.now out.old }
    ensures list { out.new ≡ list_after bytes.now table.now out.old }
    ensures weighted { result.weighted ≡ weighted_total_of_run (at weights.places) (at weights.ramps) bytes.now table.now out.old }
    ensures demand { Openable bytes.now table.now
        → DemandAndGrounds bytes.now table.now out.new (end_answer result.ended) }
    ensures weights { Openable bytes.now table.now
        → WeightedDemand bytes.now table.now (at weights.places) (at weights.ramps) out.new (end_answer result.ended) result.weighted }
{
    let a = opening::opened(bytes, table);
    let tallied = run_opened(a, bytes, table, weights, true, false, out);
    let longest = tallied.longest;
    let ended = longest.ended;
    Weighed {
        ended: ended,
        weighted: tallied.weighted,
    }
}

// Runs a record with its longest queues: running's answer and list, and the longest queues of gate and on-ramps over the steps done.
pub fn run_longest(bytes: &[u8], table: &[u8], out: &mut [u32]) -> Longest
    ensures answer { end_answer result.ended ≡ running_of bytes.now table.now out.old }
    ensures list { out.new ≡ list_after bytes.now table.now out.old }
    ensures longest { longest_queues result ≡ longest_run bytes.now table.now out.old }
    ensures demand { Openable bytes.now table.now
        → DemandAndGrounds bytes.now table.now out.new (end_answer result.ended) }
{
    let weights = Weights {
        places: [0; 65],
        ramps: [0; 64],
    };
    let a = opening::opened(bytes, table);
    let tallied = run_opened(a, bytes, table, weights, false, true, out);
    tallied.longest
}
