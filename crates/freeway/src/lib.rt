// What a buyer may call, in the order of docs/MODEL.md: each contract holds for all input. The types and their methods are those of `model`.
#![tactic(auto)]

ghost use Rattle.std.specs.Prelude.{◌≡◌, ◌^◌, ◌<◌, length};
ghost use Rattle.model.specs.Flow.{demand_of, gate_demand_of, supply_of, room_of, onward_of, entering_of, outflow_of};
ghost use Rattle.model.specs.Move.{present_of, held_sum, queue_sum, exits_of};
ghost use Rattle.model.specs.Lanes.{open_capacity};
ghost use Rattle.model.specs.Numbers.{at};
ghost use Rattle.model.specs.Weights.{weighted_present, weighted_total_of_run};
ghost use Rattle.model.specs.Reading.{read_answer, reading_of, reading_within};
ghost use Rattle.model.specs.Running.{end_answer, running_of, list_after};
ghost use Rattle.model.specs.Demand.{Openable, DemandAndGrounds, WeightedDemand, AcceptsExactly};
ghost use Rattle.model.specs.Longest.{longest_queues, longest_run, longest_fill};
ghost use Rattle.model.specs.Many.{many_fault, run_answers, run_lists, run_record, fill_answers, fill_lists, fill_record};
ghost use Rattle.model.specs.Judging.{judging_of};
ghost use Rattle.model.specs.Judging.{history_of, held_after, queue_after};
ghost use Rattle.model.specs.GoingOn.{running_on, list_on, weighted_total_on, longest_on, judging_on, history_on, held_on, queue_on};
ghost use Rattle.model.specs.GoingOn.{progressed, filling_on, record_on, filled_list_on, longest_fill_on, progress_on};
ghost use Rattle.model.specs.Filling.{meter_state};
ghost use Rattle.model.specs.Writing.{write_answer, writing_of, target_after, ReadsBack};
ghost use Rattle.model.specs.RowNumbers.{row_array, taken_count, taken_list};
ghost use Rattle.model.specs.Joining.{joining_of, joined_target, ReadsJoined};
ghost use Rattle.model.specs.Meter.{wish_of, whole_below};
ghost use Rattle.model.specs.Filling.{filling_of, record_after, filled_list, OnlyReleases};
ghost use Rattle.model.specs.Wanted.{wanted_answer, wanted_of, table_after, WantedEnds};
ghost use Rattle.model.specs.Refusals.{refusal_number, fault_answer};
ghost use Rattle.model.specs.Street.{granting_of, grants_after, GrantEnds};
ghost use Rattle.model.specs.Put.{putting_of, released_record, PutEnds};
ghost use Rattle.model.specs.Load.{load_answer, loading_of, loaded_list, LoadEnds};
ghost use Rattle.model.specs.Words.{vehicle_seconds_of};

pub use model::{
    Alinea, DemandCapacity, Ended, Fault, FilledOn, Law, Loaded, Longest, Progress, Reading,
    Refusal, Road, Start, State, Stepped, Tallied, Wanted, Weighed, Weights, Written,
};
pub use stepping::step;

// docs/MODEL.md, 'One step'

// The demand of a cell.
pub fn demand(speed: u16, capacity: u32, held: u32) -> u32
    ensures { result ≡ demand_of speed capacity held }
{
    flow::demand(speed, capacity, held)
}

// The demand of the gate.
pub fn gate_demand(capacity: u32, queue: u32) -> u32
    ensures { result ≡ gate_demand_of capacity queue }
{
    flow::gate_demand(capacity, queue)
}

// The supply of a cell; it is 0 if the cell holds more than its jam count.
pub fn supply(wave: u16, capacity: u32, jam: u32, held: u32) -> u32
    ensures { result ≡ supply_of wave capacity jam held }
{
    flow::supply(wave, capacity, jam, held)
}

// A cell's supply less a release; it is 0 if the release is above the supply.
pub fn room(supply: u32, release: u32) -> u32
    ensures { result ≡ room_of supply release }
{
    flow::room(supply, release)
}

// The onward total of a place with this cumulative outflow.
pub fn onward(share: u16, cumulative: u32) -> u64
    ensures { result ≡ onward_of share cumulative }
{
    flow::onward(share, cumulative)
}

// What enters the next cell with an outflow: the growth of the onward total.
pub fn entering(share: u16, cumulative: u32, outflow: u32) -> u64
    ensures { result ≡ entering_of share cumulative outflow }
{
    flow::entering(share, cumulative, outflow)
}

// The greatest outflow up to the demand with which no more than the room enters the next cell, by one division. With share 1,000 all of it goes on.
pub fn outflow(share: u16, cumulative: u32, room: u32, demand: u32) -> u32
    ensures { result ≡ outflow_of share cumulative room demand }
{
    flow::outflow(share, cumulative, room, demand)
}

// The same number by halves, as in the course: it is narrowed down between 0 and the demand.
pub fn outflow_by_halves(share: u16, cumulative: u32, room: u32, demand: u32) -> u32
    ensures { result ≡ outflow_of share cumulative room demand }
{
    flow::outflow_by_halves(share, cumulative, room, demand)
}

// The gate queue, all held counts and all ramp queues together.
pub fn present(r: Road, s: State) -> u64
    ensures { result ≡ present_of r s }
{
    counts::present(r, s)
}

// Present on the road: all held counts.
pub fn on_road(r: Road, s: State) -> u64
    ensures { (result ≡ held_sum r s) × (result < 2 ^ 38) }
{
    counts::on_road(r, s)
}

// Present at the ramps: all ramp queues.
pub fn at_ramps(r: Road, s: State) -> u64
    ensures { (result ≡ queue_sum r s) × (result < 2 ^ 38) }
{
    counts::at_ramps(r, s)
}

// The sum over the cells of F less the onward total; n above 64 counts as 64.
pub fn exits(r: Road, s: State) -> u64
    ensures { result ≡ exits_of r s }
{
    counts::exits(r, s)
}

// docs/MODEL.md, 'Lanes closed during works'

// The capacity that the open lanes leave a cell; it is 0 if no lane is built.
pub fn open_capacity(capacity: u32, built: u8, usable: u8) -> u32
    ensures { result ≡ open_capacity capacity built usable }
{
    lanes::open_capacity(capacity, built, usable)
}

// docs/MODEL.md, 'Weights'

// The gate queue, all held counts and all ramp queues, each times its weight; n above 64 counts as 64.
pub fn weighted(r: Road, s: State, weights: Weights) -> u64
    ensures { result ≡ weighted_present (at weights.places) (at weights.ramps) r.n s }
{
    counts::weighted(r, s, weights)
}

// docs/MODEL.md, 'Reading'

// Reads a record of any length, with only the model's limits.
pub fn read(bytes: &[u8]) -> Reading
    ensures { read_answer result ≡ reading_of bytes.now }
{
    reading::read(bytes)
}

// docs/MODEL.md, 'Reading for a caller with limits of its own'

// Reads a record of any length for a caller that takes at most `cells` cells and `most` bytes; refusals 1, 2, 3, 19, 4 and 26 come first.
pub fn read_within(bytes: &[u8], cells: usize, most: usize) -> Reading
    ensures { read_answer result ≡ reading_within cells most bytes.now }
{
    reading::read_within(bytes, cells, most)
}

// docs/MODEL.md, 'Stepping'

// `step` of `stepping` is re-exported, because a function here would copy road and state once more: 110 instructions on top of 5,890.

// docs/MODEL.md, 'Running'

// Runs a record under a table of lanes: the refusals of reading, 17, 18, 11, then 9 or 10 with its step and cell.
pub fn run(bytes: &[u8], table: &[u8], out: &mut [u32]) -> Ended
    ensures answer { end_answer result ≡ running_of bytes.now table.now out.old }
    ensures list { out.new ≡ list_after bytes.now table.now out.old }
    ensures demand { Openable bytes.now table.now → DemandAndGrounds bytes.now table.now out.new (end_answer result) }
{
    running::run(bytes, table, out)
}

// Runs a record with weights of waiting: running's answer and list, and the weighted sum of present over the steps done.
pub fn run_weighted(bytes: &[u8], table: &[u8], weights: Weights, out: &mut [u32]) -> Weighed
    ensures answer { end_answer result.ended ≡ running_of bytes.now table.now out.old }
    ensures list { out.new ≡ list_after bytes.now table.now out.old }
    ensures weighted { result.weighted ≡ weighted_total_of_run (at weights.places) (at weights.ramps) bytes.now table.now out.old }
    ensures demand { Openable bytes.now table.now
        → DemandAndGrounds bytes.now table.now out.new (end_answer result.ended) }
    ensures weights { Openable bytes.now table.now
        → WeightedDemand bytes.now table.now (at weights.places) (at weights.ramps) out.new (end_answer result.ended) result.weighted }
{
    running::run_weighted(bytes, table, weights, out)
}

// Runs a record with its longest queues: running's answer and list, and the longest queues of gate and on-ramps over the steps done.
pub fn run_longest(bytes: &[u8], table: &[u8], out: &mut [u32]) -> Longest
    ensures answer { end_answer result.ended ≡ running_of bytes.now table.now out.old }
    ensures list { out.new ≡ list_after bytes.now table.now out.old }
    ensures longest { longest_queues result ≡ longest_run bytes.now table.now out.old }
    ensures demand { Openable bytes.now table.now
        → DemandAndGrounds bytes.now table.now out.new (end_answer result.ended) }
{
    running::run_longest(bytes, table, out)
}

// docs/MODEL.md, 'Judging'

// Judges a proposed schedule under a table of lanes: the refusals of reading, 17, 18, 12, then 9 or 10 and 13 or 14 step by step.
pub fn judge(bytes: &[u8], table: &[u8], schedule: &[u32]) -> Ended
    ensures answer { end_answer result ≡ judging_of bytes.now table.now schedule.now }
    ensures accepts { AcceptsExactly bytes.now table.now schedule.now (end_answer result) }
{
    judging::judge(bytes, table, schedule)
}

// docs/MODEL.md, 'History'

// Judges a schedule under a table of lanes and writes its states: the refusals of reading, 17, 18, 12, 11, then as judging.
pub fn history(
    bytes: &[u8],
    table: &[u8],
    schedule: &[u32],
    held: &mut [u32],
    queue: &mut [u32],
) -> Ended
    ensures answer { end_answer result ≡ history_of bytes.now table.now schedule.now held.old queue.old }
    ensures held { held.new ≡ held_after bytes.now table.now schedule.now held.old queue.old }
    ensures queue { queue.new ≡ queue_after bytes.now table.now schedule.now held.old queue.old }
{
    judging::history(bytes, table, schedule, held, queue)
}

// docs/MODEL.md, 'Writing'

// Writes a record into the target, or leaves it unchanged: 2, 3, 19, 1, 4, 5, 6, then 15.
pub fn write(road: Road, steps: usize, start: Start, rows: &[u32], target: &mut [u8]) -> Written
    ensures answer { write_answer result ≡ writing_of road steps start rows.now target.old }
    ensures target { target.new ≡ target_after road steps start rows.now target.old }
    ensures back { (write_answer result).number ≡ 0 → ReadsBack road steps start rows.now (write_answer result).count target.new }
{
    writing::write(road, steps, start, rows, target)
}

// docs/MODEL.md, 'The numbers of a row'

// The numbers of step t's row in the layout of n cells, 0 if the bytes don't hold them.
pub fn row(bytes: &[u8], n: usize, t: usize) -> [u32; 129]
    ensures { result ≡ row_array bytes.now n t }
{
    taking::row(bytes, n, t)
}

// Puts the rows of the first steps into a list, one after the other, and returns the count of their numbers; 0 if there is no room.
pub fn rows(bytes: &[u8], n: usize, steps: usize, list: &mut [u32]) -> usize
    ensures count { result ≡ taken_count n steps (length list.old) }
    ensures list { list.new ≡ taken_list bytes.now n steps list.old }
{
    taking::rows(bytes, n, steps, list)
}

// docs/MODEL.md, 'Joining'

// Joins two records into the target, or leaves it unchanged: the refusals of reading, upstream first, then 5, 20, 21, 22 and 15.
pub fn join(upstream: &[u8], downstream: &[u8], share: u16, target: &mut [u8]) -> Written
    ensures answer { write_answer result ≡ joining_of upstream.now downstream.now share target.old }
    ensures target { target.new ≡ joined_target upstream.now downstream.now share target.old }
    ensures reads { (write_answer result).number ≡ 0 → ReadsJoined upstream.now downstream.now share result.count target.new }
{
    joining::join(upstream, downstream, share, target)
}

// docs/MODEL.md, 'Meter laws'

// The wish of a law, from the last release, what entered the cell from upstream in the last step, and the cell's held count.
pub fn wish(law: Law, last: u32, entered: u32, held: u32) -> f64
    ensures { result ≡ wish_of law last entered held }
{
    meter::wish(law, last, entered, held)
}

// The release of a wish: the greatest whole number not above the wish, at most the cap.
pub fn release(wish: f64, cap: u32) -> u32
    ensures { result ≡ whole_below wish cap }
{
    meter::release(wish, cap)
}

// docs/MODEL.md, 'Filling'

// Fills a record's releases by its ramps' laws under a table of lanes and runs it in one pass: the refusals of reading, 16, 17, 18, 11.
pub fn fill(bytes: &mut [u8], laws: [Law; 64], table: &[u8], out: &mut [u32]) -> Ended
    ensures answer { end_answer result ≡ filling_of laws bytes.old table.now out.old }
    ensures bytes { bytes.new ≡ record_after laws bytes.old table.now out.old }
    ensures list { out.new ≡ filled_list laws bytes.old table.now out.old }
    ensures demand { Openable bytes.old table.now → DemandAndGrounds bytes.new table.now out.new (end_answer result) }
    ensures releases { OnlyReleases bytes.old bytes.new }
{
    filling::fill(bytes, laws, table, out)
}

// Fills a record in the same way with its longest queues: filling's answer, record and list, and the longest queues over the steps done.
pub fn fill_longest(bytes: &mut [u8], laws: [Law; 64], table: &[u8], out: &mut [u32]) -> Longest
    ensures answer { end_answer result.ended ≡ filling_of laws bytes.old table.now out.old }
    ensures bytes { bytes.new ≡ record_after laws bytes.old table.now out.old }
    ensures list { out.new ≡ filled_list laws bytes.old table.now out.old }
    ensures longest { longest_queues result ≡ longest_fill laws bytes.old table.now out.old }
    ensures demand { Openable bytes.old table.now
        → DemandAndGrounds bytes.new table.now out.new (end_answer result.ended) }
    ensures releases { OnlyReleases bytes.old bytes.new }
{
    filling::fill_longest(bytes, laws, table, out)
}

// docs/MODEL.md, 'Going on'

// Runs the rows of a further record from a state, with its longest queues and its weighted total: the refusals of reading, 17, 18, 7, 8, 11, then
// 9 or 10 with its step, counted in these rows, and its cell.
pub fn run_on(bytes: &[u8], table: &[u8], weights: Weights, from: State, out: &mut [u32]) -> Tallied
    ensures answer { end_answer result.longest.ended ≡ running_on bytes.now table.now from out.old }
    ensures list { out.new ≡ list_on bytes.now table.now from out.old }
    ensures weighted { result.weighted
        ≡ weighted_total_on (at weights.places) (at weights.ramps) bytes.now table.now from out.old }
    ensures longest { longest_queues result.longest ≡ longest_on bytes.now table.now from out.old }
{
    running::run_on(bytes, table, weights, from, out)
}

// Judges a schedule of the rows of a further record from a state: the refusals of reading, 17, 18, 7, 8, 12, then 9 or 10 and 13 or 14 step by step.
pub fn judge_on(bytes: &[u8], table: &[u8], from: State, schedule: &[u32]) -> Ended
    ensures { end_answer result ≡ judging_on bytes.now table.now from schedule.now }
{
    judging::judge_on(bytes, table, from, schedule)
}

// Judges in the same way and writes the schedule's states: the refusals of reading, 17, 18, 7, 8, 12, 11, then as judging.
pub fn history_on(
    bytes: &[u8],
    table: &[u8],
    from: State,
    schedule: &[u32],
    held: &mut [u32],
    queue: &mut [u32],
) -> Ended
    ensures answer { end_answer result ≡ history_on bytes.now table.now from schedule.now held.old queue.old }
    ensures held { held.new ≡ held_on bytes.now table.now from schedule.now held.old queue.old }
    ensures queue { queue.new ≡ queue_on bytes.now table.now from schedule.now held.old queue.old }
{
    judging::history_on(bytes, table, from, schedule, held, queue)
}

// Fills the rows of a further record from the progress that an earlier one left, with its longest queues: the refusals of reading, 16, 17, 18, 7,
// 8, 11. The next record goes on from its state, releases and entries.
pub fn fill_on(
    bytes: &mut [u8],
    laws: [Law; 64],
    table: &[u8],
    from: Progress,
    out: &mut [u32],
) -> FilledOn
    ensures answer { end_answer result.longest.ended ≡ filling_on laws bytes.old table.now (progressed from) out.old }
    ensures bytes { bytes.new ≡ record_on laws bytes.old table.now (progressed from) out.old }
    ensures list { out.new ≡ filled_list_on laws bytes.old table.now (progressed from) out.old }
    ensures longest { longest_queues result.longest ≡ longest_fill_on laws bytes.old table.now (progressed from) out.old }
    ensures progress { meter_state result.longest.ended.state result.releases result.entries
        ≡ progress_on laws bytes.old table.now (progressed from) out.old }
{
    filling::fill_on(bytes, laws, table, from, out)
}

// docs/MODEL.md, 'Many studies'

// Runs a record with each of many tables of arrivals: the refusals of reading, then 27; entry k is what `run_longest` gives with table k.
pub fn run_many(
    bytes: &mut [u8],
    table: &[u8],
    arrivals: &[u32],
    out: &mut [u32],
    answers: &mut [u64],
) -> Fault
    ensures answer { fault_answer result ≡ many_fault bytes.old arrivals.now answers.old }
    ensures bytes { bytes.new ≡ run_record bytes.old arrivals.now answers.old }
    ensures list { out.new
        ≡ run_lists bytes.old table.now arrivals.now out.old answers.old }
    ensures answers { answers.new
        ≡ run_answers bytes.old table.now arrivals.now out.old answers.old }
{
    many::run_many(bytes, table, arrivals, out, answers)
}

// Fills a record with each of many tables of arrivals: the refusals of reading, then 27; entry k is what `fill_longest` gives with table k.
pub fn fill_many(
    bytes: &mut [u8],
    laws: [Law; 64],
    table: &[u8],
    arrivals: &[u32],
    out: &mut [u32],
    answers: &mut [u64],
) -> Fault
    ensures answer { fault_answer result ≡ many_fault bytes.old arrivals.now answers.old }
    ensures bytes { bytes.new
        ≡ fill_record laws bytes.old table.now arrivals.now out.old answers.old }
    ensures list { out.new
        ≡ fill_lists laws bytes.old table.now arrivals.now out.old answers.old }
    ensures answers { answers.new
        ≡ fill_answers laws bytes.old table.now arrivals.now out.old answers.old }
{
    many::fill_many(bytes, laws, table, arrivals, out, answers)
}

// docs/MODEL.md, 'Releases for a wanted queue'

// Finds the releases with the least running sum after every step; if no table keeps the queue, the lent table is unchanged.
pub fn wanted(start: u32, ceiling: u32, rate: u32, arrivals: &[u32], table: &mut [u32]) -> Wanted
    ensures answer { wanted_answer result ≡ wanted_of start ceiling rate arrivals.now (length table.old) }
    ensures table { table.new ≡ table_after start ceiling rate arrivals.now table.old }
    ensures ends { WantedEnds start ceiling rate arrivals.now table.old (wanted_answer result) table.new }
{
    wanted::wanted(start, ceiling, rate, arrivals, table)
}

// docs/MODEL.md, 'Several ramps on one street'

// Grants the releases of a step to the ramps of a street; 24 leaves the grants unchanged.
pub fn grant(limit: u32, guarantees: &[u32], wishes: &[u32], grants: &mut [u32]) -> Refusal
    ensures answer { refusal_number result ≡ granting_of limit guarantees.now wishes.now (length grants.old) }
    ensures grants { grants.new ≡ grants_after limit guarantees.now wishes.now grants.old }
    ensures ends { GrantEnds limit guarantees.now wishes.now grants.old (refusal_number result) grants.new }
{
    street::grant(limit, guarantees, wishes, grants)
}

// docs/MODEL.md, 'Putting a release'

// Puts a release into a record at a step and a cell: the refusals of reading, then 5, then 6.
pub fn put(bytes: &mut [u8], step: usize, cell: usize, release: u32) -> Fault
    ensures answer { fault_answer result ≡ putting_of bytes.old step cell release }
    ensures bytes { bytes.new ≡ released_record bytes.old step cell release }
    ensures ends { PutEnds bytes.old step cell release (fault_answer result) bytes.new }
{
    put::put(bytes, step, cell, release)
}

// docs/MODEL.md, 'A stated load'

// Fills a list with the arrivals of a seed and a peak; 25 leaves it unchanged.
pub fn load(seed: u32, peak: u32, list: &mut [u32]) -> Loaded
    ensures answer { load_answer result ≡ loading_of seed peak (length list.old) }
    ensures list { list.new ≡ loaded_list seed peak list.old }
    ensures ends { LoadEnds seed peak list.old (load_answer result) list.new }
{
    load::load(seed, peak, list)
}

// docs/MODEL.md, 'A run printed whole'

// The total of `total` × seconds ÷ 1,000, rounded down, at most the greatest number of 64 bits.
pub fn vehicle_seconds(seconds: u16, state: State) -> u64
    ensures { result ≡ vehicle_seconds_of seconds state }
{
    counts::vehicle_seconds(seconds, state)
}
