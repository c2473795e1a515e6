// Running: one step, a record whole, and the rows of a further record from a state.
ghost use Rattle.std.specs.Prelude.{◌≡◌};
ghost use Rattle.model.specs.Numbers.{at};
ghost use Rattle.model.specs.Stepping.{stepping_of};
ghost use Rattle.model.specs.Running.{running_of, list_after};
ghost use Rattle.model.specs.Demand.{Openable, DemandAndGrounds, WeightedDemand};
ghost use Rattle.model.specs.Weights.{weighted_total_of_run};
ghost use Rattle.model.specs.Longest.{longest_run};
ghost use Rattle.exports.specs.Answers.{ended_for, weighted_for, longest_for, tallied_for, stepped_for};
ghost use Rattle.model.specs.GoingOn.{running_on, list_on, weighted_total_on, longest_on};

use crate::{
    NobyalukEnded, NobyalukLanes, NobyalukLongest, NobyalukStepped, NobyalukTallied,
    NobyalukWeighed,
};
use freeway::{Road, State, Weights};

// One step of a road with a row in the record's order.
#[unsafe(no_mangle)]
pub extern "C" fn nobyaluk_step(
    road: Road,
    state: State,
    row: &[u32],
    lanes: NobyalukLanes,
) -> NobyalukStepped
    ensures { result ≡ stepped_for (stepping_of road state row.now lanes.built lanes.usable) }
{
    let built = lanes.built;
    let usable = lanes.usable;
    let a = freeway::step(road, state, row, built, usable);
    let refusal = a.refusal;
    let next = a.state;
    NobyalukStepped {
        number: refusal.number() as u64,
        place: a.place as u64,
        state: next,
    }
}

// Runs a record under a table of lanes; the rows of the steps made go to the front of the lent list.
#[unsafe(no_mangle)]
pub extern "C" fn nobyaluk_run(bytes: &[u8], lanes: &[u8], list: &mut [u32]) -> NobyalukEnded
    ensures answer { result ≡ ended_for (running_of bytes.now lanes.now list.old) }
    ensures list { list.new ≡ list_after bytes.now lanes.now list.old }
    ensures demand { Openable bytes.now lanes.now
        → DemandAndGrounds bytes.now lanes.now list.new (running_of bytes.now lanes.now list.old) }
{
    let e = freeway::run(bytes, lanes, list);
    crate::ended(e)
}

// Runs a record with weights of waiting, and also returns the weighted total of the steps made.
#[unsafe(no_mangle)]
pub extern "C" fn nobyaluk_run_weighted(
    bytes: &[u8],
    lanes: &[u8],
    weights: Weights,
    list: &mut [u32],
) -> NobyalukWeighed
    ensures answer { result ≡ weighted_for (running_of bytes.now lanes.now list.old)
        (weighted_total_of_run (at weights.places) (at weights.ramps) bytes.now lanes.now list.old) }
    ensures list { list.new ≡ list_after bytes.now lanes.now list.old }
    ensures demand { Openable bytes.now lanes.now
        → DemandAndGrounds bytes.now lanes.now list.new (running_of bytes.now lanes.now list.old) }
    ensures weights { Openable bytes.now lanes.now
        → WeightedDemand bytes.now lanes.now (at weights.places) (at weights.ramps) list.new
        (running_of bytes.now lanes.now list.old) result.weighted }
{
    let a = freeway::run_weighted(bytes, lanes, weights, list);
    let e = a.ended;
    NobyalukWeighed {
        weighted: a.weighted,
        ended: crate::ended(e),
    }
}

// Runs a record with its longest queues.
#[unsafe(no_mangle)]
pub extern "C" fn nobyaluk_run_longest(
    bytes: &[u8],
    lanes: &[u8],
    list: &mut [u32],
) -> NobyalukLongest
    ensures answer { result ≡ longest_for (running_of bytes.now lanes.now list.old)
        (longest_run bytes.now lanes.now list.old) }
    ensures list { list.new ≡ list_after bytes.now lanes.now list.old }
    ensures demand { Openable bytes.now lanes.now
        → DemandAndGrounds bytes.now lanes.now list.new (running_of bytes.now lanes.now list.old) }
{
    let a = freeway::run_longest(bytes, lanes, list);
    crate::longest(a)
}

// Runs the rows of a further record from a state, with weights and with the longest queues.
#[unsafe(no_mangle)]
pub extern "C" fn nobyaluk_run_on(
    bytes: &[u8],
    lanes: &[u8],
    weights: Weights,
    from: State,
    list: &mut [u32],
) -> NobyalukTallied
    ensures answer { result ≡ tallied_for (running_on bytes.now lanes.now from list.old)
        (weighted_total_on (at weights.places) (at weights.ramps) bytes.now lanes.now from list.old)
        (longest_on bytes.now lanes.now from list.old) }
    ensures list { list.new ≡ list_on bytes.now lanes.now from list.old }
{
    let a = freeway::run_on(bytes, lanes, weights, from, list);
    let told = a.longest;
    NobyalukTallied {
        weighted: a.weighted,
        longest: crate::longest(told),
    }
}
