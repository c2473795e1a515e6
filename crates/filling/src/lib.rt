// Filling: a record's releases, granted to its ramps by their meter laws, step by step.
#![tactic(auto)]

mod last_step;

ghost use Rattle.std.specs.Prelude.{◌≡◌, true, List, ℕ, ◌+◌, ◌-◌, ◌≤◌, ◌<◌, leb};
ghost use Rattle.model.specs.declared.Road.{Road};
ghost use Rattle.model.specs.declared.Law.{Law};
ghost use Rattle.passes.specs.Tables.{road_in, cell_col};
ghost use Rattle.ramps.specs.LastStep.{CameRequires};
ghost use Rattle.model.specs.Reading.{study_by, read_answer};
ghost use Rattle.model.specs.Filling.{meter_state};
ghost use Rattle.model.specs.Put.{put_table};
ghost use Rattle.model.specs.Running.{end_with, end_answer, table_of};
ghost use Rattle.model.specs.Demand.{Openable, DemandAndGrounds};
ghost use Rattle.model.specs.Longest.{longest_queues, longest_fill};
ghost use Rattle.model.specs.Filling.{metered_from, granted_from, filled_from, filling_of, record_after, filled_list, OnlyReleases};
ghost use Rattle.model.specs.GoingOn.{progressed, filling_on, record_on, filled_list_on, longest_fill_on, progress_on};
ghost use Rattle.model.specs.Numbers.{at, all_of, fill_of, row_at};
ghost use Rattle.model.specs.Road.{most_cells, zeros, without_state};
ghost use Rattle.model.specs.Flow.{release_at};
ghost use Rattle.model.specs.Record.{record_row};
ghost use Rattle.counts.specs.Longest.{no_queues};
ghost use Rattle.filling.specs.FillReading.{FillReading};
ghost use Rattle.filling.specs.LastStep.{entered_in, LastStepRequires};
ghost use Rattle.filling.specs.Turn.{FillRequires, FillLent, FillGives};
ghost use Rattle.filling.specs.FillingLoop.{FillableFrom, work_from};
ghost use Rattle.filling.specs.LongestFill.{longest_from};

use model::{Ended, FilledOn, Law, Longest, Progress, Reading, Refusal, Road};
use outflows::Ledger;
use passes::{
    CAME, CAPACITY, CELL, DEMAND, HELD, JAM, QUEUE, RELEASE, ROOM, SHARE, SPEED, Size, WAVE,
};

// One step on lent tables of columns: its releases are granted and put into the bytes, then the step is made with them.
fn fill_row<'a, 'b>(
    bytes: &mut [u8],
    k: usize,
    size: Size,
    rates: &'a [[u16; 64]; 3],
    sizes: &'a [[u32; 64]; 3],
    kinds: &'b [u8; 64],
    numbers: &'b [f64; 192],
    l: Ledger,
    state: &mut [[u32; 64]; 4],
    work: &mut [[u32; 65]; 5],
    y: &mut [u32],
) -> Ledger
    requires { FillLent bytes.old k size rates.now sizes.now kinds.now numbers.now l state.old work.old y.old }
    ensures { (laws : List Law) (r : Road) (releases entries : List ℕ)
        → FillRequires laws bytes.old (road_in r size rates.now sizes.now) l state.old releases entries k
        kinds.now numbers.now size.ramps (cell_col sizes.now) work.old y.old
        → FillGives laws bytes.old (road_in r size rates.now sizes.now) l state.old releases entries k
        bytes.new result state.new size.ramps (cell_col sizes.now) work.new y.new }
{
    let start = fields::row_start(fields::version(bytes), size.n, k);
    passes::supplies(
        size.n,
        &rates[WAVE],
        &sizes[JAM],
        &sizes[CAPACITY],
        &state[HELD],
        &mut work[ROOM],
    );
    ramps::grant(
        bytes,
        start,
        size.ramps,
        &sizes[CELL],
        kinds,
        numbers,
        state,
        work,
    );
    let arrivals = fields::number(bytes, start, fields::NUMBER_SIZE);
    passes::demands(
        size.n,
        &rates[SPEED],
        &sizes[CAPACITY],
        &state[HELD],
        &mut work[DEMAND],
    );
    passes::next(
        size.n,
        size.ramps,
        size.gate_capacity,
        &rates[SHARE],
        &sizes[CELL],
        arrivals,
        l,
        work,
        state,
        y,
    )
}

// What the passes fill, before the first step: empty columns, with the last release at each listed ramp and what had come into each cell.
fn begun(n: usize, ramps: usize, cell: &[u32; 64], from: Progress) -> [[u32; 65]; 5]
    requires { ((ramps ≤ most_cells) × ((j : ℕ) → j < ramps → at cell.now j < most_cells))
        × CameRequires n from.state.held from.state.cumulative from.entries }
    ensures { result ≡ work_from n ramps cell.now (progressed from) }
{
    let s = from.state;
    let mut work = [[0u32; 65]; 5];
    ramps::last_releases(ramps, cell, &from.releases, &mut work[RELEASE]);
    ramps::came_before(n, &s.held, &s.cumulative, &from.entries, &mut work[CAME]);
    work
}

// Fills the releases of every step under a table of lanes and writes its outflows; returns the final state, and the longest queues if they are
// wanted.
fn fill_rows(
    bytes: &mut [u8],
    laws: [Law; 64],
    table: &[u8],
    r: Road,
    from: Progress,
    steps: usize,
    longs: bool,
    out: &mut [u32],
) -> Longest
    requires { FillableFrom bytes.old (study_by bytes.old table.now r from.state steps) (progressed from) out.old }
    ensures releases { bytes.new
        ≡ put_table bytes.old r.n (granted_from laws (study_by bytes.old table.now r from.state steps) (progressed from)) steps }
    ensures list { out.new
        ≡ table_of (filled_from laws (study_by bytes.old table.now r from.state steps) (progressed from)) out.old steps }
    ensures answer { end_answer result.ended
        ≡ end_with 0 0 0 r (metered_from laws (study_by bytes.old table.now r from.state steps) (progressed from) steps).state }
    ensures longest { longs ≡ true
        → longest_queues result ≡ longest_from laws (study_by bytes.old table.now r from.state steps) (progressed from) }
{
    let capacity = r.capacity;
    let columns = meter::columns(laws);
    let rates = passes::rates(r);
    let mut sizes = passes::sizes(r);
    let size = passes::list_ramps(r, &mut sizes[CELL]);
    let mut work = begun(r.n, size.ramps, &sizes[CELL], from);
    let mut state = passes::of_state(r, from.state);
    let mut l = Ledger::of(from.state);
    let mut gate = counts::no_queue();
    let mut most = [0u32; 64];
    let mut k = 0;
    let mut to = 0;
    while k < steps {
        if table.len() != 0 {
            let open_now = lanes::step_capacities(capacity, table, r.n, k);
            sizes[CAPACITY] = open_now;
        }
        let end = to + (r.n + 1);
        let next = fill_row(
            bytes,
            k,
            size,
            &rates,
            &sizes,
            &columns.kinds,
            &columns.numbers,
            l,
            &mut state,
            &mut work,
            &mut out[to..end],
        );
        if longs {
            gate = counts::raised(gate, l, next, r.n, &state[QUEUE], &mut most);
        }
        l = next;
        to = end;
        k += 1;
    }
    counts::longest(Ended::complete(r, passes::to_state(l, state)), gate, most)
}

// Reading's answer, or a refusal: those of reading, 16, 17, 18.
fn fill_reading(bytes: &[u8], laws: [Law; 64], table: &[u8]) -> Reading
    ensures { FillReading laws bytes.now table.now (read_answer result) }
{
    let a = reading::read(bytes);
    let refusal = a.refusal;
    if refusal.number() != 0 {
        return a;
    }
    let road = a.road;
    let ramp = road.ramp;
    let place = meter::law_fault(laws, ramp, road.n);
    if place != 0 {
        return reading::refused(Refusal::LawNumbers, place);
    }
    let q = opening::refused(table, road.n, a.steps);
    let closed = q.refusal;
    if closed.number() != 0 {
        return reading::refused(closed, q.place);
    }
    a
}

// Fills a record's releases by its ramps' laws under a table of lanes and runs it in one pass; with its longest queues if they are wanted.
fn fill_opened(
    bytes: &mut [u8],
    laws: [Law; 64],
    table: &[u8],
    longs: bool,
    out: &mut [u32],
) -> Longest
    ensures answer { end_answer result.ended ≡ filling_of laws bytes.old table.now out.old }
    ensures bytes { bytes.new ≡ record_after laws bytes.old table.now out.old }
    ensures list { out.new ≡ filled_list laws bytes.old table.now out.old }
    ensures demand { Openable bytes.old table.now
        → DemandAndGrounds bytes.new table.now out.new (end_answer result.ended) }
    ensures releases { OnlyReleases bytes.old bytes.new }
    ensures longest { longs ≡ true → longest_queues result ≡ longest_fill laws bytes.old table.now out.old }
{
    let a = fill_reading(bytes, laws, table);
    let refusal = a.refusal;
    if refusal.number() != 0 {
        return counts::unbegun(refusal, a.place);
    }
    let road = a.road;
    let state = a.state;
    let steps = a.steps;
    if out.len() < steps * (road.n + 1) {
        return counts::unbegun(Refusal::ListLength, 0);
    }
    let start = Progress {
        state: state,
        releases: [0; 64],
        entries: [0; 64],
    };
    fill_rows(bytes, laws, table, road, start, steps, longs, out)
}

// Fills a record's releases by its ramps' laws under a table of lanes and runs it in one pass: the refusals of reading, 16, 17, 18, 11.
pub fn fill(bytes: &mut [u8], laws: [Law; 64], table: &[u8], out: &mut [u32]) -> Ended
    ensures answer { end_answer result ≡ filling_of laws bytes.old table.now out.old }
    ensures bytes { bytes.new ≡ record_after laws bytes.old table.now out.old }
    ensures list { out.new ≡ filled_list laws bytes.old table.now out.old }
    ensures demand { Openable bytes.old table.now → DemandAndGrounds bytes.new table.now out.new (end_answer result) }
    ensures releases { OnlyReleases bytes.old bytes.new }
{
    let filled = fill_opened(bytes, laws, table, false, out);
    filled.ended
}

// Fills a record in the same way with its longest queues: filling's answer, record and list, and the longest queues over the steps done.
pub fn fill_longest(bytes: &mut [u8], laws: [Law; 64], table: &[u8], out: &mut [u32]) -> Longest
    ensures answer { end_answer result.ended ≡ filling_of laws bytes.old table.now out.old }
    ensures bytes { bytes.new ≡ record_after laws bytes.old table.now out.old }
    ensures list { out.new ≡ filled_list laws bytes.old table.now out.old }
    ensures longest { longest_queues result ≡ longest_fill laws bytes.old table.now out.old }
    ensures demand { Openable bytes.old table.now
        → DemandAndGrounds bytes.new table.now out.new (end_answer result.ended) }
    ensures releases { OnlyReleases bytes.old bytes.new }
{
    fill_opened(bytes, laws, table, true, out)
}

// Whether no last entry of the first n cells is above what the cell holds.
fn entries_within(n: usize, held: [u32; 64], entries: [u32; 64]) -> bool
    requires { n ≤ most_cells }
    ensures { result ≡ all_of (λ i. leb (at entries i) (at held i)) n }
{
    let mut i = 0;
    while i < n {
        if held[i] < entries[i] {
            return false;
        }
        i += 1;
    }
    true
}

// A refusal that names no state, without a step done.
fn unbegun(refusal: Refusal, place: usize) -> FilledOn
    ensures { (result.longest.ended ≡ without_state refusal place)
        × ((longest_queues result.longest ≡ no_queues) × ((result.releases ≡ zeros) × (result.entries ≡ zeros))) }
{
    let longest = counts::unbegun(refusal, place);
    FilledOn {
        longest: longest,
        releases: [0; 64],
        entries: [0; 64],
    }
}

// Filling's answer, with what its last step leaves for a further record: its releases are in the record, its outflows in the list.
fn with_last(
    bytes: &[u8],
    r: Road,
    steps: usize,
    from: Progress,
    longest: Longest,
    out: &[u32],
) -> FilledOn
    requires { LastStepRequires bytes.now r steps longest.ended.state.cumulative out.now }
    ensures { (result.longest ≡ longest)
        × ((result.releases ≡ fill_of (release_at (record_row bytes.now r.n (steps - 1))) r.n from.releases)
        × (result.entries ≡ fill_of (entered_in r.share longest.ended.state.cumulative (row_at out.now (r.n + 1) (steps - 1))) r.n from.entries)) }
{
    let n = r.n;
    let places = n + 1;
    let to = (steps - 1) * places;
    let end = to + places;
    let mut releases = from.releases;
    last_step::put_releases(bytes, n, steps - 1, &mut releases);
    let state = longest.ended.state;
    let mut entries = from.entries;
    last_step::put_entries(n, &r.share, &state.cumulative, &out[to..end], &mut entries);
    FilledOn {
        longest: longest,
        releases: releases,
        entries: entries,
    }
}

// Fills the rows of a further record from the progress that an earlier one left, with its longest queues: the refusals of reading, 16, 17, 18, 7, 8, 11.
pub fn fill_on(
    bytes: &mut [u8],
    laws: [Law; 64],
    table: &[u8],
    from: Progress,
    out: &mut [u32],
) -> FilledOn
    ensures answer { end_answer result.longest.ended ≡ filling_on laws bytes.old table.now (progressed from) out.old }
    ensures bytes { bytes.new ≡ record_on laws bytes.old table.now (progressed from) out.old }
    ensures list { out.new ≡ filled_list_on laws bytes.old table.now (progressed from) out.old }
    ensures longest { longest_queues result.longest ≡ longest_fill_on laws bytes.old table.now (progressed from) out.old }
    ensures progress { meter_state result.longest.ended.state result.releases result.entries
        ≡ progress_on laws bytes.old table.now (progressed from) out.old }
{
    let a = fill_reading(bytes, laws, table);
    let refusal = a.refusal;
    if refusal.number() != 0 {
        return unbegun(refusal, a.place);
    }
    let road = a.road;
    let n = road.n;
    let steps = a.steps;
    let state = from.state;
    let held = state.held;
    let entries = from.entries;
    let within = limits::state_within(road, state) & entries_within(n, held, entries);
    let begins = opening::start_refusal(within, state.done, steps);
    if begins.number() != 0 {
        return unbegun(begins, 0);
    }
    if out.len() < steps * (n + 1) {
        return unbegun(Refusal::ListLength, 0);
    }
    let longest = fill_rows(bytes, laws, table, road, from, steps, true, out);
    with_last(bytes, road, steps, from, longest, out)
}
