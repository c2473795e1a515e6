// What is printed for a record, put at the start of a buffer: its whole run, or a refusal's line.
#![tactic(auto)]

ghost use Rattle.std.specs.Prelude.{[], ◌+◌, ◌*◌, ◌≤◌, ◌<◌, length};
ghost use Rattle.model.specs.declared.Road.{Road};
ghost use Rattle.model.specs.Refusals.{fault_answer};
ghost use Rattle.model.specs.declared.State.{State};
ghost use Rattle.model.specs.Road.{most_cells};
ghost use Rattle.passes.specs.Tables.{road_in, state_in, held_col, queue_col, cell_col};
ghost use Rattle.passes.specs.Step.{StepRequires, StepLent};
ghost use Rattle.model.specs.Reading.{study_by};
ghost use Rattle.numbers.specs.PlacedText.{Puts};
ghost use Rattle.model.specs.Listing.{most_line, lines_of, last_of, printed_run, printed_within, most_text, HoldsPrinted};
ghost use Rattle.listing.specs.ListingLaws.{showing};
ghost use Rattle.printing.specs.Lines.{Printable, LastLinesRequire, StepLinesGive};

use model::{Fault, Road, State};
use outflows::Ledger;
use passes::{CELL, HELD, QUEUE, Size};

// The greatest length of a text: no record that reads needs more bytes.
pub const TEXT: usize = 924161;

// Room for the longest text. As a function's result its length is known; for a literal the prover would count the zeros one by one.
pub fn room() -> [u8; TEXT] {
    [0; TEXT]
}

// A step that was made and put: its fault, or none, the ledger after it, and the index after its lines.
#[derive(Clone, Copy)]
struct Put {
    fault: Fault,
    ledger: Ledger,
    end: usize,
}

// Puts the lines of a step: its row of outflows, and gate queue, held counts and ramp queues after it.
fn table_lines(
    buffer: &mut [u8],
    at: usize,
    k: usize,
    n: usize,
    y: &[u32],
    gate_queue: u32,
    state: &[[u32; 64]; 4],
) -> usize
    requires { (n ≤ most_cells) × ((n < length y.now) × (at + most_line * (n + 1) ≤ length buffer.old)) }
    ensures { (s : State) → Puts buffer.old at
        (lines_of k y.now (showing s gate_queue (held_col state.now) (queue_col state.now)) n) buffer.new result }
{
    listing::lines(buffer, at, k, n, y, gate_queue, &state[HELD], &state[QUEUE])
}

// Makes step `k` on lent tables of columns and puts its lines; `y` has room for its row of outflows. A fault puts nothing.
fn step_lines<'a>(
    bytes: &[u8],
    k: usize,
    size: Size,
    rates: &'a [[u16; 64]; 3],
    sizes: &'a [[u32; 64]; 3],
    l: Ledger,
    state: &mut [[u32; 64]; 4],
    work: &mut [[u32; 65]; 5],
    y: &mut [u32],
    buffer: &mut [u8],
    at: usize,
) -> Put
    requires { (StepLent bytes.now k size rates.now sizes.now l state.old work.old y.old) × (at + most_line * (size.n + 1) ≤ length buffer.old) }
    ensures { (r : Road)
        → StepRequires bytes.now k (road_in r size rates.now sizes.now) size.ramps (cell_col sizes.now)
        l state.old work.old y.old
        → StepLinesGive bytes.now k (road_in r size rates.now sizes.now) (state_in l state.old)
        size.ramps (cell_col sizes.now) buffer.old at (fault_answer result.fault) result.ledger state.new work.new
        buffer.new result.end }
{
    let made = passes::step(bytes, k, size, rates, sizes, l, state, work, y);
    let fault = made.fault;
    let refusal = fault.refusal;
    let ledger = made.ledger;
    if refusal.number() != 0 {
        return Put {
            fault: fault,
            ledger: ledger,
            end: at,
        };
    }
    let end = table_lines(buffer, at, k, size.n, y, ledger.gate_queue, state);
    Put {
        fault: fault,
        ledger: ledger,
        end: end,
    }
}

// Puts the line of the totals, and in version 2 that of the seconds.
#[tactic(auto, using(crate::specs::Lines::last_steps))]
fn last_lines(buffer: &mut [u8], at: usize, r: Road, u: State) -> usize
    requires { LastLinesRequire r u buffer.old at }
    ensures { Puts buffer.old at (last_of r u) buffer.new result }
{
    let total = u.total();
    let exits = counts::exits(r, u);
    let end = listing::total(
        buffer,
        at,
        total,
        u.gate_time,
        u.road_time,
        u.ramp_time,
        exits,
    );
    if r.version == fields::SECOND_VERSION {
        return listing::seconds(buffer, end, counts::vehicle_seconds(r.seconds, u));
    }
    end
}

// Puts the header, the lines of each step as it is made, and the last lines; after a fault only a refusal's line.
fn run_lines(bytes: &[u8], r: Road, s: State, steps: usize, buffer: &mut [u8]) -> usize
    requires { Printable bytes.now (study_by bytes.now [] r s steps) buffer.old }
    ensures { HoldsPrinted buffer.old (printed_run (study_by bytes.now [] r s steps)) buffer.new result }
{
    let rates = passes::rates(r);
    let mut sizes = passes::sizes(r);
    let size = passes::list_ramps(r, &mut sizes[CELL]);
    let places = size.n + 1;
    let mut state = passes::of_state(r, s);
    let mut work = [[0u32; 65]; 5];
    let mut l = Ledger::of(s);
    let mut end = listing::header(buffer, 0);
    let mut k = 0;
    while k < steps {
        let mut row = [0u32; 65];
        let y = &mut row[..places];
        let put = step_lines(
            bytes, k, size, &rates, &sizes, l, &mut state, &mut work, y, buffer, end,
        );
        let fault = put.fault;
        let refusal = fault.refusal;
        let number = refusal.number();
        if number != 0 {
            return listing::refused(buffer, 0, number, k, fault.place);
        }
        l = put.ledger;
        end = put.end;
        k += 1;
    }
    last_lines(buffer, end, r, passes::to_state(l, state))
}

// Puts the text for a record at the start of the buffer and returns its length; the caller takes at most `cells` cells and `most` bytes.
pub fn printed_within(bytes: &[u8], cells: usize, most: usize, buffer: &mut [u8]) -> usize
    requires { most_text ≤ length buffer.old }
    ensures { HoldsPrinted buffer.old (printed_within cells most bytes.now) buffer.new result }
{
    let a = reading::read_within(bytes, cells, most);
    let refusal = a.refusal;
    let number = refusal.number();
    if number != 0 {
        return listing::refused(buffer, 0, number, 0, a.place);
    }
    let road = a.road;
    let state = a.state;
    run_lines(bytes, road, state, a.steps, buffer)
}
