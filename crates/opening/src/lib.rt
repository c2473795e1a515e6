// A table of lanes: refusals 17 and 18, and a record opened with it, for running, filling and judging; and going on from a state, with 7 and 8.
#![tactic(auto)]

ghost use Rattle.std.specs.Prelude.{◌≡◌, ◌≤◌, true, ◌+◌, leb};
ghost use Rattle.model.specs.Road.{most_cells, most_steps};
ghost use Rattle.model.specs.Refusals.{refusal_number, fault, fault_answer};
ghost use Rattle.model.specs.Stepping.{table_fault};
ghost use Rattle.model.specs.Reading.{read_answer};
ghost use Rattle.model.specs.Running.{opening_of};
ghost use Rattle.model.specs.Numbers.{unless};
ghost use Rattle.theory.specs.StartingState.{starting_of};
ghost use Rattle.opening.specs.OpenedStudy.{OpenedReadable};

use model::{Fault, Reading, Refusal, Road, State};

fn made(refusal: Refusal, place: usize) -> Fault
    ensures { fault_answer result ≡ fault (refusal_number refusal) place }
{
    Fault {
        refusal: refusal,
        place: place,
    }
}

// The refusal of a table for a road of n cells and a run of `steps` steps: 17, then 18 at the lowest cell over all rows, or none.
pub fn refused(table: &[u8], n: usize, steps: usize) -> Fault
    requires { (n ≤ most_cells) × (steps ≤ most_steps) }
    ensures { fault_answer result ≡ table_fault table.now n steps }
{
    if table.len() == 0 {
        return made(Refusal::None, 0);
    }
    if table.len() != n * (steps + 1) {
        return made(Refusal::LanesLength, 0);
    }
    let cell = lanes::first_in_table(table, n, steps);
    if cell != n {
        return made(Refusal::Lanes, cell + 1);
    }
    made(Refusal::None, 0)
}

// Reading's answer, or a refusal: those of reading, then 17, then 18.
pub fn opened(bytes: &[u8], table: &[u8]) -> Reading
    ensures answer { read_answer result ≡ opening_of bytes.now table.now }
    ensures opens { OpenedReadable bytes.now table.now (read_answer result) }
{
    let a = reading::read(bytes);
    let refusal = a.refusal;
    if refusal.number() != 0 {
        return a;
    }
    let road = a.road;
    let q = refused(table, road.n, a.steps);
    let closed = q.refusal;
    if closed.number() != 0 {
        return reading::refused(closed, q.place);
    }
    a
}

// The refusal of a start: 7 if it breaks a limit, then 8 if more than 1,440 steps would be done, or none.
pub fn start_refusal(within: bool, done: usize, steps: usize) -> Refusal
    requires { (within ≡ true → done ≤ most_steps) × (steps ≤ most_steps) }
    ensures { refusal_number result ≡ unless within 7 (unless (leb (done + steps) most_steps) 8 0) }
{
    if !within {
        return Refusal::StepInput;
    }
    if Road::STEPS < done + steps {
        return Refusal::StepsDone;
    }
    Refusal::None
}

// A record opened to go on from a state: its road and T, with that state, or a refusal: those of reading, 17, 18, 7, 8.
pub fn started(bytes: &[u8], table: &[u8], from: State) -> Reading
    ensures answer { read_answer result ≡ starting_of bytes.now table.now from }
    ensures opens { OpenedReadable bytes.now table.now (read_answer result) }
{
    let a = opened(bytes, table);
    let refusal = a.refusal;
    if refusal.number() != 0 {
        return a;
    }
    let road = a.road;
    let within = limits::state_within(road, from);
    let begins = start_refusal(within, from.done, a.steps);
    if begins.number() != 0 {
        return reading::refused(begins, 0);
    }
    Reading {
        refusal: Refusal::None,
        place: 0,
        steps: a.steps,
        road: road,
        state: from,
    }
}
