// Present, exits and the total, for any road and state.
ghost use Rattle.std.specs.Prelude.{◌≡◌, min};
ghost use Rattle.model.specs.Numbers.{at};
ghost use Rattle.model.specs.Road.{most_long, total_of};
ghost use Rattle.model.specs.Words.{vehicle_seconds_of};
ghost use Rattle.model.specs.Move.{held_sum, queue_sum, present_of, exits_of};
ghost use Rattle.model.specs.Weights.{weighted_present};

use freeway::{Road, State, Weights};

// The gate's queue, all held counts and all ramp queues together.
#[unsafe(no_mangle)]
pub extern "C" fn nobyaluk_present(road: Road, state: State) -> u64
    ensures { result ≡ present_of road state }
{
    freeway::present(road, state)
}

// Present on the road.
#[unsafe(no_mangle)]
pub extern "C" fn nobyaluk_on_road(road: Road, state: State) -> u64
    ensures { result ≡ held_sum road state }
{
    freeway::on_road(road, state)
}

// Present at the ramps.
#[unsafe(no_mangle)]
pub extern "C" fn nobyaluk_at_ramps(road: Road, state: State) -> u64
    ensures { result ≡ queue_sum road state }
{
    freeway::at_ramps(road, state)
}

// Present with weights: each place and ramp queue times its weight.
#[unsafe(no_mangle)]
pub extern "C" fn nobyaluk_weighted(road: Road, state: State, weights: Weights) -> u64
    ensures { result ≡ weighted_present (at weights.places) (at weights.ramps) road.n state }
{
    freeway::weighted(road, state, weights)
}

// The exits: all that has left by the off-ramps and the road's end.
#[unsafe(no_mangle)]
pub extern "C" fn nobyaluk_exits(road: Road, state: State) -> u64
    ensures { result ≡ exits_of road state }
{
    freeway::exits(road, state)
}

// Total time spent: gate, road and ramp time together, at most the greatest number of 64 bits.
#[unsafe(no_mangle)]
pub extern "C" fn nobyaluk_total(state: State) -> u64
    ensures { result ≡ min (total_of state) most_long }
{
    state.total()
}

// Total time spent in vehicle-seconds, with so many seconds per step.
#[unsafe(no_mangle)]
pub extern "C" fn nobyaluk_vehicle_seconds(seconds: u16, state: State) -> u64
    ensures { result ≡ vehicle_seconds_of seconds state }
{
    freeway::vehicle_seconds(seconds, state)
}
