// The pass that computes the outflows and moves the cells, one after the other.
ghost use Rattle.std.specs.Prelude.{◌≡◌, ℕ, ◌+◌, ◌≤◌, length};
ghost use Rattle.model.specs.Flow.{whole};
ghost use Rattle.model.specs.Road.{most_rate, most_cells};
ghost use Rattle.model.specs.Numbers.{fill_of};
ghost use Rattle.passes.specs.Rest.{rest_of, rest_in, OutflowByRest};
ghost use Rattle.passes.specs.Tables.{held_col, cumulative_col, rest_col, QueuesKept};
ghost use Rattle.passes.specs.Outflows.{pass_of, SendRequires, SendGives};

use crate::{CUMULATIVE, HELD, REST};

// What a place sends in a step: its outflow, what enters the next cell, and the next remainder of b x F by 1,000.
#[derive(Clone, Copy)]
struct Flow {
    outflow: u32,
    entering: u32,
    rest: u32,
}

// The remainder of b x F by 1,000.
fn remainder(share: u16, cumulative: u32) -> u32
    ensures { result ≡ rest_of share cumulative }
{
    let product = share as u64 * cumulative as u64;
    (product % 1000) as u32
}

// The remainders of b x F by 1,000 of the first n cells, with which a run begins.
pub fn remainders(n: usize, share: &[u16; 64], cumulative: &[u32; 64], rest: &mut [u32; 64])
    requires { n ≤ most_cells }
    ensures { rest.new ≡ fill_of (rest_in share.now cumulative.now) n rest.old }
{
    let mut i = 0;
    while i < n {
        rest[i] = remainder(share[i], cumulative[i]);
        i += 1;
    }
}

// What a place sends, computed from the remainder of b x F by 1,000, its demand and the room of the next cell. If the demand does not fit,
// exactly the room enters.
fn outflow_by_rest(share: u16, rest: u32, demand: u32, room: u32) -> Flow
    requires { (share ≤ whole) × ((demand ≤ most_rate) × (rest ≤ 999)) }
    ensures { (F : ℕ) → rest ≡ rest_of share F → OutflowByRest share F room demand result.outflow result.entering result.rest }
{
    if share == 1000 {
        let all = crate::least(demand, room);
        return Flow {
            outflow: all,
            entering: all,
            rest: 0,
        };
    }
    let b = share as u32;
    let all = rest + b * demand;
    let entering = all / 1000;
    if room < entering {
        // most = b x outflow + most % b, so the next remainder, rest + b x outflow - 1000 x room, is 999 - most % b
        let most = 1000 * room + 999 - rest;
        return Flow {
            outflow: most / b,
            entering: room,
            rest: 999 - most % b,
        };
    }
    Flow {
        outflow: demand,
        entering: entering,
        rest: all % 1000,
    }
}

// Outflows and move of all cells, without their releases. Returns the sum of the held counts afterwards.
pub fn send(
    n: usize,
    share: &[u16; 64],
    demand: &[u32; 65],
    room: &[u32; 65],
    first: u32,
    state: &mut [[u32; 64]; 4],
    y: &mut [u32],
) -> u32
    requires { SendRequires n (pass_of first share.now demand.now room.now (held_col state.old) (cumulative_col state.old)) (rest_col state.old)
        × ((length state.old ≡ 4) × (length y.old ≡ n + 1)) }
    ensures send_gives { SendGives n (pass_of first share.now demand.now room.now (held_col state.old)
        (cumulative_col state.old)) (rest_col state.old) y.old
        (held_col state.new) (rest_col state.new) (cumulative_col state.new) y.new result }
    ensures kept { QueuesKept state.old state.new }
{
    y[0] = first;
    let mut entering = first;
    let mut on_road: u32 = 0;
    let mut i = 0;
    while i < n {
        let s = outflow_by_rest(share[i], state[REST][i], demand[i], room[i + 1]);
        let outflow = s.outflow;
        let left = state[HELD][i] + entering - outflow;
        y[i + 1] = outflow;
        state[CUMULATIVE][i] = state[CUMULATIVE][i] + outflow;
        state[HELD][i] = left;
        state[REST][i] = s.rest;
        on_road = on_road + left;
        entering = s.entering;
        i += 1;
    }
    on_road
}
