// The road, its state, the limits as named constants, the refusals and the answers.
#![tactic(auto)]

ghost use Rattle.std.specs.Prelude.{◌≡◌, ◌+◌, min};
ghost use Rattle.model.specs.Road.{most_long, empty_road, empty_state, ended_at, without_state, start_state, start_in, total_of};
ghost use Rattle.model.specs.Refusals.{refusal_number};

// Cell i of docs/MODEL.md is at i - 1 of each array; entries from n on belong to no cell.
#[repr(C)]
#[derive(Clone, Copy)]
pub struct Road {
    pub n: usize,
    // The record's version, 1 or 2, and the step's length in seconds, which is 0 in version 1. No step depends on either.
    pub version: u8,
    pub seconds: u16,
    pub gate_capacity: u32,
    // v, w and b, in thousandths; b is the share of the outflow that enters the next cell.
    pub speed: [u16; 64],
    pub wave: [u16; 64],
    pub share: [u16; 64],
    // The ramp mark: 1 for a cell with an on-ramp, otherwise 0.
    pub ramp: [u16; 64],
    // J in parts, and C in parts per step.
    pub jam: [u32; 64],
    pub capacity: [u32; 64],
}

// Counts are in parts, times in part-steps.
#[repr(C)]
#[derive(Clone, Copy)]
pub struct State {
    // Steps done since the start.
    pub done: usize,
    // Sums over the steps done: of the gate queue, of all held counts and of all ramp queues after each step.
    pub gate_time: u64,
    pub road_time: u64,
    pub ramp_time: u64,
    pub gate_queue: u32,
    // F, the cumulative outflow since step 0, of the gate and of each cell.
    pub gate_cumulative: u32,
    pub held: [u32; 64],
    // The on-ramps' queues.
    pub queue: [u32; 64],
    pub cumulative: [u32; 64],
}

impl Road {
    pub const CELLS: usize = 64;

    pub const STEPS: usize = 1440;

    pub const BYTES: usize = 65536;

    // The limit of a rate, in parts per step, and of a jam count.
    pub const RATE: u32 = 1000000;

    // The limit of a starting queue.
    pub const START: u32 = 1000000000;

    // The limit of the step's seconds.
    pub const SECONDS: u16 = 900;

    // The limit of a speed, a wave and a share; the gate's share. It is the whole in thousandths.
    pub const WHOLE: u16 = 1000;

    // The limit of the ramps that share a street.
    pub const RAMPS: usize = 8;

    // The limit of the total, for each step done.
    pub const PRESENT: u64 = 200000000000;

    // The greatest number of 64 bits.
    pub const LONG: u64 = 18446744073709551615;

    pub fn empty() -> Self
        ensures { result ≡ empty_road }
    {
        Self {
            n: 0,
            version: 0,
            seconds: 0,
            gate_capacity: 0,
            speed: [0; 64],
            wave: [0; 64],
            share: [0; 64],
            ramp: [0; 64],
            jam: [0; 64],
            capacity: [0; 64],
        }
    }
}

impl State {
    pub fn empty() -> Self
        ensures { result ≡ empty_state }
    {
        Self {
            done: 0,
            gate_time: 0,
            road_time: 0,
            ramp_time: 0,
            gate_queue: 0,
            gate_cumulative: 0,
            held: [0; 64],
            queue: [0; 64],
            cumulative: [0; 64],
        }
    }

    // Total time spent: the three times together, at most the greatest number of 64 bits. Only an invented state exceeds that.
    pub fn total(self) -> u64
        ensures { result ≡ min (total_of self) most_long }
    {
        together(together(self.gate_time, self.road_time), self.ramp_time)
    }

    // The start of a study that begins with this state.
    pub fn start(self) -> Start
        ensures { result ≡ start_in self }
    {
        let held = self.held;
        let queues = self.queue;
        Start {
            gate_queue: self.gate_queue,
            held: held,
            queue: queues,
        }
    }
}

// The sum of two numbers, at most the greatest number of 64 bits.
fn together(a: u64, b: u64) -> u64
    ensures { result ≡ min (a + b) most_long }
{
    if Road::LONG - a < b {
        return Road::LONG;
    }
    a + b
}

// The start of a study: the gate's queue, held counts and the on-ramps' queues.
#[repr(C)]
#[derive(Clone, Copy)]
pub struct Start {
    pub gate_queue: u32,
    pub held: [u32; 64],
    pub queue: [u32; 64],
}

impl Start {
    // The state before step 0: nothing has left, and no step is done.
    pub fn state(self) -> State
        ensures { result ≡ start_state self }
    {
        let held = self.held;
        let queue = self.queue;
        State {
            done: 0,
            gate_time: 0,
            road_time: 0,
            ramp_time: 0,
            gate_queue: self.gate_queue,
            gate_cumulative: 0,
            held: held,
            queue: queue,
            cumulative: [0; 64],
        }
    }
}

// Why an operation was refused, in the order of the model's numbers.
#[derive(Clone, Copy)]
pub enum Refusal {
    None,
    Length,
    Version,
    Counts,
    Size,
    Limits,
    Rates,
    StepInput,
    StepsDone,
    ReleaseAboveQueue,
    ReleaseAboveSupply,
    ListLength,
    ScheduleLength,
    OutflowAboveDemand,
    EnteringAboveRoom,
    TargetLength,
    LawNumbers,
    LanesLength,
    Lanes,
    Seconds,
    RoadsDiffer,
    SecondGate,
    JoinedSize,
    WantedInput,
    StreetInput,
    Peak,
    CallerLimits,
    ManyLengths,
}

impl Refusal {
    // The refusal's number, 0 for none.
    pub fn number(self) -> u8
        ensures { result ≡ refusal_number self }
    {
        match self {
            Refusal::None => 0,
            Refusal::Length => 1,
            Refusal::Version => 2,
            Refusal::Counts => 3,
            Refusal::Size => 4,
            Refusal::Limits => 5,
            Refusal::Rates => 6,
            Refusal::StepInput => 7,
            Refusal::StepsDone => 8,
            Refusal::ReleaseAboveQueue => 9,
            Refusal::ReleaseAboveSupply => 10,
            Refusal::ListLength => 11,
            Refusal::ScheduleLength => 12,
            Refusal::OutflowAboveDemand => 13,
            Refusal::EnteringAboveRoom => 14,
            Refusal::TargetLength => 15,
            Refusal::LawNumbers => 16,
            Refusal::LanesLength => 17,
            Refusal::Lanes => 18,
            Refusal::Seconds => 19,
            Refusal::RoadsDiffer => 20,
            Refusal::SecondGate => 21,
            Refusal::JoinedSize => 22,
            Refusal::WantedInput => 23,
            Refusal::StreetInput => 24,
            Refusal::Peak => 25,
            Refusal::CallerLimits => 26,
            Refusal::ManyLengths => 27,
        }
    }
}

// What stepping answers. The step is always 0: no rule of stepping names one.
#[derive(Clone, Copy)]
pub struct Stepped {
    pub refusal: Refusal,
    pub step: usize,
    pub place: usize,
    pub state: State,
}

// What reading answers.
#[derive(Clone, Copy)]
pub struct Reading {
    pub refusal: Refusal,
    // The lowest place out of its limits (5), the first step whose row is out of them (6), and otherwise 0.
    pub place: usize,
    // T.
    pub steps: usize,
    pub road: Road,
    // The state before step 0.
    pub state: State,
}

// What writing answers.
#[derive(Clone, Copy)]
pub struct Written {
    pub refusal: Refusal,
    // The lowest place out of its limits (5), the first step whose row is out of them (6), and otherwise 0.
    pub place: usize,
    // The bytes written, 0 after a refusal.
    pub count: usize,
}

// What loading answers.
#[derive(Clone, Copy)]
pub struct Loaded {
    pub refusal: Refusal,
    // The generator's number after the last arrival; the seed if there is none.
    pub last: u32,
}

// The answer of the search for releases that keep a wanted queue.
#[derive(Clone, Copy)]
pub enum Wanted {
    Refused(Refusal),
    // No table of releases keeps the wanted queue.
    None,
    Found,
}

// A refusal, or none, with its place: for a table of lanes, a row of releases or of outflows, a release put into a record, and for many
// studies as a whole.
#[derive(Clone, Copy)]
pub struct Fault {
    pub refusal: Refusal,
    // For a release put into a record: the place of a refusal of reading, the cell given for 5, the step given for 6.
    pub place: usize,
}

// What running and judging answer: the road with the final state, or with the state before a refused step.
#[derive(Clone, Copy)]
pub struct Ended {
    pub refusal: Refusal,
    pub step: usize,
    pub place: usize,
    pub road: Road,
    pub state: State,
}

// Weights of waiting, 0 to 255: of the gate and each cell, gate first, and of each on-ramp's queue. Weights past cell n are not read.
#[repr(C)]
#[derive(Clone, Copy)]
pub struct Weights {
    pub places: [u8; 65],
    pub ramps: [u8; 64],
}

// What a weighted run answers: running's answer, and the weighted sum of present over the steps done.
#[derive(Clone, Copy)]
pub struct Weighed {
    pub ended: Ended,
    pub weighted: u64,
}

impl Ended {
    // A refusal that names no state gives an all-zero road and state.
    pub fn without_state(refusal: Refusal, place: usize) -> Self
        ensures { result ≡ without_state refusal place }
    {
        Self {
            refusal: refusal,
            step: 0,
            place: place,
            road: Road::empty(),
            state: State::empty(),
        }
    }

    // A refused step, with its place and the state before it.
    pub fn at_step(refusal: Refusal, step: usize, place: usize, road: Road, state: State) -> Self
        ensures { result ≡ ended_at refusal step place road state }
    {
        Self {
            refusal: refusal,
            step: step,
            place: place,
            road: road,
            state: state,
        }
    }

    // All steps are made: the final state.
    pub fn complete(road: Road, state: State) -> Self
        ensures { result ≡ ended_at Refusal.None 0 0 road state }
    {
        Self {
            refusal: Refusal::None,
            step: 0,
            place: 0,
            road: road,
            state: state,
        }
    }
}

// What a run with its longest queues answers: running's or filling's answer, and the longest queue of the gate and of each cell's on-ramp
// after any step done, 0 if no step was done. `waiting` is the gate's without the step's arrivals: the most vehicles that were there
// before a step and did not leave in it.
#[derive(Clone, Copy)]
pub struct Longest {
    pub ended: Ended,
    pub gate: u32,
    pub waiting: u32,
    pub ramps: [u32; 64],
}

// What a run that goes on from a state answers: its answer with its longest queues, and its weighted total, both over the steps of its record.
#[derive(Clone, Copy)]
pub struct Tallied {
    pub longest: Longest,
    pub weighted: u64,
}

// What filling goes on from: a state, and for the step before it each release and what entered each cell from upstream.
#[repr(C)]
#[derive(Clone, Copy)]
pub struct Progress {
    pub state: State,
    pub releases: [u32; 64],
    pub entries: [u32; 64],
}

// What filling that goes on answers: its answer with its longest queues, and the last releases and entries, from which the next filling goes on.
#[derive(Clone, Copy)]
pub struct FilledOn {
    pub longest: Longest,
    pub releases: [u32; 64],
    pub entries: [u32; 64],
}

// ALINEA: a gain, and the target count of the cell.
#[derive(Clone, Copy)]
pub struct Alinea {
    pub gain: f64,
    pub target: f64,
}

// Demand-capacity: up to the critical count the wish is what remains of the capacity, above it the least rate.
#[derive(Clone, Copy)]
pub struct DemandCapacity {
    pub capacity: f64,
    pub critical: f64,
    pub least: f64,
}

// The meter law of a ramp; a fixed law has its rate.
#[derive(Clone, Copy)]
pub enum Law {
    Fixed(f64),
    Alinea(Alinea),
    DemandCapacity(DemandCapacity),
}
