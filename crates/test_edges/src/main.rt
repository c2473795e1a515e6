// The edges of docs/MODEL.md for the rules of one place and for stepping, computed by the compiled code.
#![tactic(auto)]

use freeway::{Road, State};

fn show(label: &[u8], value: u64) {
    io::write_all(1, label);
    io::print_decimal(1, value);
    io::write_all(1, b"\n");
}

fn demands() {
    show(
        b"v 500 C 2000 held 2566: demand ",
        freeway::demand(500, 2000, 2566) as u64,
    );
    show(
        b"v 500 C 2000 held 2567: demand ",
        freeway::demand(500, 2000, 2567) as u64,
    );
    show(
        b"v 1000 C 2000 held 2001: demand ",
        freeway::demand(1000, 2000, 2001) as u64,
    );
    show(
        b"gate capacity 2000 queue 3000: demand ",
        freeway::gate_demand(2000, 3000) as u64,
    );
}

fn supplies() {
    show(
        b"w 250 C 2000 J 8000 held 2566: supply ",
        freeway::supply(250, 2000, 8000, 2566) as u64,
    );
    show(
        b"w 250 C 2000 J 8000 held 8000: supply ",
        freeway::supply(250, 2000, 8000, 8000) as u64,
    );
    show(
        b"w 250 C 2000 J 8000 held 8001: supply ",
        freeway::supply(250, 2000, 8000, 8001) as u64,
    );
    show(
        b"supply 1000 release 1001: room ",
        freeway::room(1000, 1001) as u64,
    );
}

fn onwards() {
    show(b"b 750 F 934: onward total ", freeway::onward(750, 934));
    show(
        b"b 750 F 934 outflow 933: entering ",
        freeway::entering(750, 934, 933),
    );
    show(
        b"b 750 F 934 outflow 934: entering ",
        freeway::entering(750, 934, 934),
    );
}

fn outflows() {
    show(
        b"b 750 F 0 room 0 demand 1283: outflow ",
        freeway::outflow(750, 0, 0, 1283) as u64,
    );
    show(
        b"b 750 F 934 room 700 demand 1283: outflow ",
        freeway::outflow(750, 934, 700, 1283) as u64,
    );
    show(
        b"b 0 F 5 room 0 demand 1283: outflow ",
        freeway::outflow(0, 5, 0, 1283) as u64,
    );
    show(
        b"b 2000 F 0 room 9 demand 1283: outflow ",
        freeway::outflow(2000, 0, 9, 1283) as u64,
    );
}

// The road of the printed run.
fn printed_road() -> Road {
    let mut road = Road::empty();
    road.n = 2;
    road.gate_capacity = 2000;
    road.speed[0] = 500;
    road.speed[1] = 500;
    road.wave[0] = 250;
    road.wave[1] = 250;
    road.share[0] = 750;
    road.ramp[1] = 1;
    road.jam[0] = 8000;
    road.jam[1] = 8000;
    road.capacity[0] = 2000;
    road.capacity[1] = 1000;
    road
}

// The start of the printed run, with another queue at the ramp.
fn start(queue: u32) -> State {
    let mut state = State::empty();
    state.gate_queue = 3000;
    state.held[0] = 2000;
    state.held[1] = 4000;
    state.queue[1] = queue;
    state
}

// The row of the printed run, with another release.
fn row(release: u32) -> [u32; 5] {
    [1000, 0, 0, 500, release]
}

fn word(value: u64) {
    io::write_all(1, b" ");
    io::print_decimal(1, value);
}

fn number(value: u32) {
    word(value as u64);
}

// The growth of F: the outflow in the step.
fn growth(before: u32, after: u32) -> u32 {
    if before < after { after - before } else { 0 }
}

fn cell(outflow: u32, held: u32, queue: u32) {
    number(outflow);
    number(held);
    number(queue);
}

// Prints for each place the outflow in the step, held or gate queue after it, and ramp queue after it.
fn places(before: State, after: State) {
    number(growth(before.gate_cumulative, after.gate_cumulative));
    number(after.gate_queue);
    cell(
        growth(before.cumulative[0], after.cumulative[0]),
        after.held[0],
        after.queue[0],
    );
    cell(
        growth(before.cumulative[1], after.cumulative[1]),
        after.held[1],
        after.queue[1],
    );
}

// Three lanes built in every cell.
fn built() -> [u8; 64] {
    [7; 64]
}

// One step with all lanes open, printed: refusal, place, the places' numbers, present, on the road and at the ramps, total, gate, road and ramp
// time, and exits. Returns the next state.
fn stepped(label: &[u8], road: Road, before: State, numbers: &[u32]) -> State {
    stepped_by(label, road, before, numbers, built(), built())
}

// The same with these lanes built and open.
fn stepped_by(
    label: &[u8],
    road: Road,
    before: State,
    numbers: &[u32],
    built: [u8; 64],
    usable: [u8; 64],
) -> State {
    let answer = freeway::step(road, before, numbers, built, usable);
    let refusal = answer.refusal;
    let after = answer.state;
    io::write_all(1, label);
    word(refusal.number() as u64);
    word(answer.place as u64);
    places(before, after);
    word(freeway::present(road, after));
    word(freeway::on_road(road, after));
    word(freeway::at_ramps(road, after));
    word(after.total());
    word(after.gate_time);
    word(after.road_time);
    word(after.ramp_time);
    word(freeway::exits(road, after));
    io::write_all(1, b"\n");
    after
}

// Steps 0, 1 and 2 of the printed run.
fn printed_run() {
    let road = printed_road();
    let numbers = row(300);
    let first = stepped(b"printed run, step 0:", road, start(1500), &numbers);
    let second = stepped(b"printed run, step 1:", road, first, &numbers);
    stepped(b"printed run, step 2:", road, second, &numbers);
}

// A step of the printed run from a start with another queue at the ramp, with another release.
fn released(label: &[u8], queue: u32, release: u32) {
    stepped(label, printed_road(), start(queue), &row(release));
}

// The bounds of refusals 9 and 10: 500 arrive at the ramp, and the supply is 1000.
fn releases() {
    released(b"queue 0 arrivals 500 release 500:", 0, 500);
    released(b"queue 0 arrivals 500 release 501:", 0, 501);
    released(b"queue 300 arrivals 500 release 800:", 300, 800);
    released(b"queue 300 arrivals 500 release 801:", 300, 801);
    released(b"supply 1000 release 1000:", 1500, 1000);
    released(b"supply 1000 release 1001:", 1500, 1001);
    released(
        b"queue 500 arrivals 500 release 1001, above both:",
        500,
        1001,
    );
}

// A step of the printed run from a start with another held count at cell 2.
fn held(label: &[u8], count: u32) {
    let mut full = start(1500);
    full.held[1] = count;
    stepped(label, printed_road(), full, &row(300));
}

// A step of the printed run from a start that has done some steps.
fn done(label: &[u8], steps: usize) {
    let mut late = start(1500);
    late.done = steps;
    stepped(label, printed_road(), late, &row(300));
}

// A step of the printed run from a start after one step with these times.
fn times(label: &[u8], gate: u64, on_road: u64, ramp: u64) {
    let mut late = start(1500);
    late.done = 1;
    late.gate_time = gate;
    late.road_time = on_road;
    late.ramp_time = ramp;
    stepped(label, printed_road(), late, &row(300));
}

fn cells(label: &[u8], n: usize) {
    let mut road = printed_road();
    road.n = n;
    stepped(label, road, start(1500), &row(300));
}

// The bounds of refusals 7 and 8.
fn limits() {
    held(b"held 8000 of 8000, supply 0:", 8000);
    held(b"held 8001 of 8000:", 8001);
    done(b"steps done 1439:", 1439);
    done(b"steps done 1440:", 1440);
    done(b"steps done 1441:", 1441);
    times(
        b"times 100000000000 and 100000000000 after a step:",
        100000000000,
        100000000000,
        0,
    );
    times(b"and 1 more at the ramps:", 100000000000, 100000000000, 1);
    times(b"times that wrap to 0:", 18446744073709551615, 1, 0);
    cells(b"65 cells:", 65);
    cells(b"0 cells:", 0);
    stepped(
        b"a row of 3 numbers:",
        printed_road(),
        start(1500),
        &[1000u32, 0, 0],
    );
}

fn capacities() {
    show(
        b"C 2000 with 2 of 3 lanes open: capacity ",
        freeway::open_capacity(2000, 7, 5) as u64,
    );
    show(
        b"C 2000 with no lane open: capacity ",
        freeway::open_capacity(2000, 7, 0) as u64,
    );
    show(
        b"C 2000 with no lane built: capacity ",
        freeway::open_capacity(2000, 0, 1) as u64,
    );
    show(
        b"C 4294967295 with 2 lanes open of 1: capacity ",
        freeway::open_capacity(4294967295, 1, 3) as u64,
    );
}

// A step of the printed run with these lanes open at cell 2, after some steps and with another release.
fn opened(label: &[u8], lanes: u8, steps: usize, release: u32) {
    let mut late = start(1500);
    late.done = steps;
    let mut usable = built();
    usable[1] = lanes;
    usable[2] = 255;
    stepped_by(label, printed_road(), late, &row(release), built(), usable);
}

// The lanes of cell 2: with one of three closed the supply is 666. The lanes of cell 3, which is not on the road, are not read.
fn closures() {
    opened(b"a lane closed, release 666:", 6, 0, 666);
    opened(b"a lane closed, release 667:", 6, 0, 667);
    opened(b"all lanes closed, release 0:", 0, 0, 0);
    opened(b"an open lane that is not built:", 8, 0, 300);
    opened(b"the same with 1440 steps done:", 8, 1440, 300);
    let mut lanes = built();
    lanes[0] = 0;
    stepped_by(
        b"no lane built at cell 1:",
        printed_road(),
        start(1500),
        &row(300),
        lanes,
        lanes,
    );
}

fn main() {
    demands();
    supplies();
    onwards();
    outflows();
    capacities();
    printed_run();
    releases();
    limits();
    closures();
}
