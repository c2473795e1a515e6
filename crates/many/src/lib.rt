// Many studies: one record, the arrivals of each study put into it in turn, run or filled, and an entry of answers per study.
#![tactic(auto)]

ghost use Rattle.std.specs.Prelude.{◌≡◌, ◌+◌, length};
ghost use Rattle.model.specs.Numbers.{at, front_of};
ghost use Rattle.model.specs.Refusals.{refusal_number, fault, fault_answer};
ghost use Rattle.model.specs.Running.{end_answer};
ghost use Rattle.model.specs.Longest.{longest_queues};
ghost use Rattle.model.specs.Many.{put_arrivals, with_arrivals, entry_size, answer_entry, many_fault, run_entry};
ghost use Rattle.model.specs.Many.{run_answers, list_after_runs, run_lists, record_after_runs, run_record};
ghost use Rattle.model.specs.Many.{fill_entry, fill_answers, list_after_fillings, fill_lists, record_after_fillings, fill_record};
ghost use Rattle.many.specs.Putting.{RowFits, TableFits};
ghost use Rattle.many.specs.Studies.{Studies};
ghost use Rattle.many.specs.Whole.{ManyFinding};

use model::{Fault, Law, Longest, Refusal, Road};
use numbers::wide;

// How many numbers an entry has, and how many come before those of the ramps.
const ENTRY: usize = 75;

const RAMPS: usize = 11;

// Puts the arrivals of a row's places, gate first.
fn put_row(bytes: &mut [u8], version: u8, n: usize, t: usize, row: &[u32])
    requires { RowFits bytes.old version n t row.now }
    ensures { bytes.new ≡ put_arrivals bytes.old n t (at row.now) (n + 1) }
{
    let start = fields::row_start(version, n, t);
    let mut to = fields::put_number(bytes, start, row[0]);
    let mut p = 1;
    while p < row.len() {
        fields::put_number(bytes, to, row[p]);
        to += fields::RATES_SIZE;
        p += 1;
    }
}

// Puts a table of arrivals into the rows of a record, instead of their own.
fn put_arrivals(bytes: &mut [u8], n: usize, steps: usize, table: &[u32])
    requires { TableFits bytes.old n steps table.now }
    ensures { bytes.new ≡ with_arrivals bytes.old n steps table.now }
{
    let version = fields::version(bytes);
    let places = n + 1;
    let mut from = 0;
    let mut t = 0;
    while t < steps {
        let end = from + places;
        put_row(bytes, version, n, t, &table[from..end]);
        from = end;
        t += 1;
    }
}

// The entry of an answer.
fn entry(a: Longest) -> [u64; 75]
    ensures { result ≡ answer_entry (end_answer a.ended) (longest_queues a) }
{
    let ended = a.ended;
    let refusal = ended.refusal;
    let state = ended.state;
    let ramps = a.ramps;
    let exits = counts::exits(ended.road, state);
    let present = counts::present(ended.road, state);
    let mut r = [0u64; 75];
    r[0] = refusal.number() as u64;
    r[1] = ended.step as u64;
    r[2] = ended.place as u64;
    r[3] = state.gate_time;
    r[4] = state.road_time;
    r[5] = state.ramp_time;
    r[6] = state.total();
    r[7] = exits;
    r[8] = present;
    r[9] = a.gate as u64;
    r[10] = a.waiting as u64;
    let mut i = 0;
    while i < Road::CELLS {
        r[RAMPS + i] = wide(ramps[i]);
        i += 1;
    }
    r
}

// Puts an entry into its part of the answers.
fn put_entry(part: &mut [u64], entry: [u64; 75])
    requires { length part.old ≡ entry_size }
    ensures { part.new ≡ entry }
{
    let mut k = 0;
    while k < part.len() {
        part[k] = entry[k];
        k += 1;
    }
}

// Runs each study: the record with the arrivals of its table.
fn run_studies(
    bytes: &mut [u8],
    table: &[u8],
    arrivals: &[u32],
    n: usize,
    steps: usize,
    count: usize,
    out: &mut [u32],
    answers: &mut [u64],
)
    requires { Studies bytes.old arrivals.now n steps count answers.old }
    ensures record { bytes.new ≡ record_after_runs bytes.old arrivals.now count }
    ensures list { out.new ≡ list_after_runs bytes.old table.now arrivals.now out.old count }
    ensures answers { answers.new
        ≡ front_of (run_entry bytes.old table.now arrivals.now out.old) entry_size answers.old count }
{
    let size = steps * (n + 1);
    let mut from = 0;
    let mut to = 0;
    let mut k = 0;
    while k < count {
        let next = from + size;
        put_arrivals(bytes, n, steps, &arrivals[from..next]);
        let a = running::run_longest(bytes, table, out);
        let numbers = entry(a);
        let end = to + ENTRY;
        put_entry(&mut answers[to..end], numbers);
        from = next;
        to = end;
        k += 1;
    }
}

// Fills each study by the laws of its ramps: the record with the arrivals of its table.
fn fill_studies(
    bytes: &mut [u8],
    laws: [Law; 64],
    table: &[u8],
    arrivals: &[u32],
    n: usize,
    steps: usize,
    count: usize,
    out: &mut [u32],
    answers: &mut [u64],
)
    requires { Studies bytes.old arrivals.now n steps count answers.old }
    ensures record { bytes.new
        ≡ record_after_fillings laws bytes.old table.now arrivals.now out.old count }
    ensures list { out.new
        ≡ list_after_fillings laws bytes.old table.now arrivals.now out.old count }
    ensures answers { answers.new
        ≡ front_of (fill_entry laws bytes.old table.now arrivals.now out.old) entry_size answers.old count }
{
    let size = steps * (n + 1);
    let mut from = 0;
    let mut to = 0;
    let mut k = 0;
    while k < count {
        let next = from + size;
        put_arrivals(bytes, n, steps, &arrivals[from..next]);
        let a = filling::fill_longest(bytes, laws, table, out);
        let numbers = entry(a);
        let end = to + ENTRY;
        put_entry(&mut answers[to..end], numbers);
        from = next;
        to = end;
        k += 1;
    }
}

// The studies of a record and its tables of arrivals: what is refused of them as a whole, or the cells, the steps and how many studies there are.
#[derive(Clone, Copy)]
struct Whole {
    fault: Fault,
    n: usize,
    steps: usize,
    count: usize,
}

fn refused(refusal: Refusal, place: usize) -> Whole
    ensures { fault_answer result.fault ≡ fault (refusal_number refusal) place }
{
    let fault = Fault {
        refusal: refusal,
        place: place,
    };
    Whole {
        fault: fault,
        n: 0,
        steps: 0,
        count: 0,
    }
}

// The refusals of reading, then 27: tables that are not whole, then no room for an entry a study.
fn studies(bytes: &[u8], arrivals: &[u32], answers: &[u64]) -> Whole
    ensures { ManyFinding bytes.now arrivals.now answers.now (fault_answer result.fault) result.n result.steps result.count }
{
    let a = reading::read(bytes);
    let refusal = a.refusal;
    if refusal.number() != 0 {
        return refused(refusal, a.place);
    }
    let n = a.road.n;
    let steps = a.steps;
    let size = steps * (n + 1);
    if arrivals.len() % size != 0 {
        return refused(Refusal::ManyLengths, 1);
    }
    let count = arrivals.len() / size;
    if answers.len() / ENTRY < count {
        return refused(Refusal::ManyLengths, 2);
    }
    let fault = Fault {
        refusal: Refusal::None,
        place: 0,
    };
    Whole {
        fault: fault,
        n: n,
        steps: steps,
        count: count,
    }
}

// Runs a record with each of many tables of arrivals, one after the other: the refusals of reading, then 27; an entry of answers per study.
pub fn run_many(
    bytes: &mut [u8],
    table: &[u8],
    arrivals: &[u32],
    out: &mut [u32],
    answers: &mut [u64],
) -> Fault
    ensures answer { fault_answer result ≡ many_fault bytes.old arrivals.now answers.old }
    ensures bytes { bytes.new ≡ run_record bytes.old arrivals.now answers.old }
    ensures list { out.new
        ≡ run_lists bytes.old table.now arrivals.now out.old answers.old }
    ensures answers { answers.new
        ≡ run_answers bytes.old table.now arrivals.now out.old answers.old }
{
    let a = studies(bytes, arrivals, answers);
    let fault = a.fault;
    let refusal = fault.refusal;
    if refusal.number() != 0 {
        return fault;
    }
    run_studies(bytes, table, arrivals, a.n, a.steps, a.count, out, answers);
    fault
}

// Fills a record with each of many tables of arrivals in the same way: the refusals of reading, then 27; an entry of answers per study.
pub fn fill_many(
    bytes: &mut [u8],
    laws: [Law; 64],
    table: &[u8],
    arrivals: &[u32],
    out: &mut [u32],
    answers: &mut [u64],
) -> Fault
    ensures answer { fault_answer result ≡ many_fault bytes.old arrivals.now answers.old }
    ensures bytes { bytes.new
        ≡ fill_record laws bytes.old table.now arrivals.now out.old answers.old }
    ensures list { out.new
        ≡ fill_lists laws bytes.old table.now arrivals.now out.old answers.old }
    ensures answers { answers.new
        ≡ fill_answers laws bytes.old table.now arrivals.now out.old answers.old }
{
    let a = studies(bytes, arrivals, answers);
    let fault = a.fault;
    let refusal = fault.refusal;
    if refusal.number() != 0 {
        return fault;
    }
    fill_studies(
        bytes, laws, table, arrivals, a.n, a.steps, a.count, out, answers,
    );
    fault
}
