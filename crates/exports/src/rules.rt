// The flow rules of one place, on any numbers.
ghost use Rattle.std.specs.Prelude.{◌≡◌};
ghost use Rattle.model.specs.Flow.{demand_of, gate_demand_of, supply_of, room_of, onward_of, entering_of, outflow_of};
ghost use Rattle.model.specs.Lanes.{open_capacity};

// The demand of a cell.
#[unsafe(no_mangle)]
pub extern "C" fn nobyaluk_demand(speed: u16, capacity: u32, held: u32) -> u32
    ensures { result ≡ demand_of speed capacity held }
{
    freeway::demand(speed, capacity, held)
}

// The demand of the gate.
#[unsafe(no_mangle)]
pub extern "C" fn nobyaluk_gate_demand(capacity: u32, queue: u32) -> u32
    ensures { result ≡ gate_demand_of capacity queue }
{
    freeway::gate_demand(capacity, queue)
}

// The supply of a cell.
#[unsafe(no_mangle)]
pub extern "C" fn nobyaluk_supply(wave: u16, capacity: u32, jam: u32, held: u32) -> u32
    ensures { result ≡ supply_of wave capacity jam held }
{
    freeway::supply(wave, capacity, jam, held)
}

// The room: a supply less a release.
#[unsafe(no_mangle)]
pub extern "C" fn nobyaluk_room(supply: u32, release: u32) -> u32
    ensures { result ≡ room_of supply release }
{
    freeway::room(supply, release)
}

// The onward total of a place with this cumulative outflow.
#[unsafe(no_mangle)]
pub extern "C" fn nobyaluk_onward(share: u16, cumulative: u32) -> u64
    ensures { result ≡ onward_of share cumulative }
{
    freeway::onward(share, cumulative)
}

// What enters the next cell with an outflow.
#[unsafe(no_mangle)]
pub extern "C" fn nobyaluk_entering(share: u16, cumulative: u32, outflow: u32) -> u64
    ensures { result ≡ entering_of share cumulative outflow }
{
    freeway::entering(share, cumulative, outflow)
}

// The greatest outflow up to the demand whose entering part fits the room, by one division.
#[unsafe(no_mangle)]
pub extern "C" fn nobyaluk_outflow(share: u16, cumulative: u32, room: u32, demand: u32) -> u32
    ensures { result ≡ outflow_of share cumulative room demand }
{
    freeway::outflow(share, cumulative, room, demand)
}

// The same outflow, narrowed down by halves.
#[unsafe(no_mangle)]
pub extern "C" fn nobyaluk_outflow_by_halves(
    share: u16,
    cumulative: u32,
    room: u32,
    demand: u32,
) -> u32
    ensures { result ≡ outflow_of share cumulative room demand }
{
    freeway::outflow_by_halves(share, cumulative, room, demand)
}

// The capacity that the open lanes leave.
#[unsafe(no_mangle)]
pub extern "C" fn nobyaluk_open_capacity(capacity: u32, built: u8, usable: u8) -> u32
    ensures { result ≡ open_capacity capacity built usable }
{
    freeway::open_capacity(capacity, built, usable)
}
