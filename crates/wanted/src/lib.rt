// Releases for a wanted queue: the table whose running sum is the least possible after every step.
#![tactic(auto)]

ghost use Rattle.std.specs.Prelude.{◌≡◌, ◌-◌, max, length};
ghost use Rattle.model.specs.Wanted.{ArrivalsOk, Limits, wanted_frame_ok, possible_of, inflow_of, least_table, wanted_answer, wanted_of, table_after, WantedEnds};

use model::{Refusal, Road, Wanted};

// `most` less `used`; 0 if `used` is more.
fn less(most: u32, used: u32) -> u32
    ensures { result ≡ most - used }
{
    if used < most { most - used } else { 0 }
}

fn larger(a: u32, b: u32) -> u32
    ensures { result ≡ max a b }
{
    if a < b { b } else { a }
}

// The tests of 23 except those of the arrivals.
fn frame_within(start: u32, ceiling: u32, rate: u32, steps: usize, places: usize) -> bool
    ensures { result ≡ wanted_frame_ok start ceiling rate steps places }
{
    (1 <= steps)
        & ((steps <= Road::STEPS)
            & ((places == steps)
                & ((rate <= Road::RATE) & ((start <= Road::START) & (ceiling <= Road::START)))))
}

// Whether the queue stays at or under the ceiling if each step releases as much as possible.
fn possible(start: u32, ceiling: u32, rate: u32, arrivals: &[u32]) -> bool
    requires { Limits start ceiling rate arrivals.now }
    ensures { result ≡ possible_of start ceiling rate arrivals.now }
{
    let mut queue = start;
    let mut k = 0;
    while k < arrivals.len() {
        queue = less(queue + arrivals[k], rate);
        if ceiling < queue {
            return false;
        }
        k += 1;
    }
    true
}

// The start queue and all arrivals.
fn inflow(start: u32, arrivals: &[u32]) -> u32
    requires { ArrivalsOk start arrivals.now }
    ensures { result ≡ inflow_of start arrivals.now (length arrivals.now) }
{
    let mut total = start;
    let mut k = 0;
    while k < arrivals.len() {
        total += arrivals[k];
        k += 1;
    }
    total
}

// Fills the table from its last step back: `after` is the least running sum after step k, `total` the inflow up to it.
fn fill(start: u32, ceiling: u32, rate: u32, arrivals: &[u32], table: &mut [u32])
    requires { (Limits start ceiling rate arrivals.now) × (length table.old ≡ length arrivals.now) }
    ensures { table.new ≡ least_table start ceiling rate arrivals.now }
{
    let mut total = inflow(start, arrivals);
    let mut after = less(total, ceiling);
    let mut k = arrivals.len() - 1;
    while 0 < k {
        total -= arrivals[k];
        let before = larger(less(total, ceiling), less(after, rate));
        table[k] = after - before;
        after = before;
        k -= 1;
    }
    table[0] = after;
}

// Finds the releases with the least running sum after every step; if no table keeps the queue, the lent table is unchanged.
pub fn wanted(start: u32, ceiling: u32, rate: u32, arrivals: &[u32], table: &mut [u32]) -> Wanted
    ensures answer { wanted_answer result ≡ wanted_of start ceiling rate arrivals.now (length table.old) }
    ensures table { table.new ≡ table_after start ceiling rate arrivals.now table.old }
    ensures ends { WantedEnds start ceiling rate arrivals.now table.old (wanted_answer result) table.new }
{
    if !frame_within(start, ceiling, rate, arrivals.len(), table.len()) {
        return Wanted::Refused(Refusal::WantedInput);
    }
    if !limits::all_within(arrivals, Road::RATE) {
        return Wanted::Refused(Refusal::WantedInput);
    }
    if !possible(start, ceiling, rate, arrivals) {
        return Wanted::None;
    }
    fill(start, ceiling, rate, arrivals, table);
    Wanted::Found
}
