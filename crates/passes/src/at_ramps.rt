// The cells with a ramp: their list, and the passes over it that subtract the releases from rooms and queues and add them to the cells.
ghost use Rattle.std.specs.Prelude.{◌≡◌, ℕ, ◌≤◌, length};
ghost use Rattle.model.specs.Road.{most_cells};
ghost use Rattle.passes.specs.Supplies.{NoRamp};
ghost use Rattle.passes.specs.RampList.{Listed, AtRamps};
ghost use Rattle.passes.specs.Tables.{held_col, queue_col, SumsKept};
ghost use Rattle.passes.specs.TakeReleases.{TakeRequires, TakeAnswer};
ghost use Rattle.passes.specs.AddReleases.{AddRequires, AddLent, AddGives, most_on_road, most_at_ramps};

use crate::{HELD, QUEUE, RELEASE, ROOM, WAITING};

// Lists the cells with a ramp, lowest first, and returns their number.
pub fn ramp_cells(n: usize, ramp: &[u16; 64], cell: &mut [u32; 64]) -> usize
    requires { (n ≤ most_cells) × (length cell.old ≡ most_cells) }
    ensures { (Listed (NoRamp ramp.now) n result cell.new)
        × ((AtRamps ramp.now result cell.new) × (length cell.new ≡ most_cells)) }
{
    let mut count = 0;
    let mut i = 0;
    while i < n {
        if ramp[i] == 1 {
            cell[count] = i as u32;
            count += 1;
        }
        i += 1;
    }
    count
}

// Whether the releases of the row at `start` fit. If so, each room is reduced by its release, and the columns of releases and of waiting hold each
// ramp's release and its queue after it.
pub fn take_releases(
    bytes: &[u8],
    start: usize,
    n: usize,
    ramps: usize,
    cell: &[u32; 64],
    queue: &[u32; 64],
    work: &mut [[u32; 65]; 5],
) -> bool
    requires { TakeRequires bytes.now start n ramps cell.now queue.now work.old }
    ensures { TakeAnswer result bytes.now start n ramps cell.now queue.now work.old work.new }
{
    let mut k = 0;
    while k < ramps {
        let i = cell[k] as usize;
        let from = start + fields::NUMBER_SIZE + fields::RATES_SIZE * i;
        let arrivals = fields::number(bytes, from, fields::NUMBER_SIZE);
        let most = queue[i] + arrivals;
        let given = fields::number(bytes, from + fields::NUMBER_SIZE, fields::NUMBER_SIZE);
        let supply = work[ROOM][i];
        if most < given {
            return false;
        }
        if supply < given {
            return false;
        }
        work[ROOM][i] = supply - given;
        work[RELEASE][k] = given;
        work[WAITING][k] = most - given;
        k += 1;
    }
    true
}

// The sum of all held counts, and of all ramp queues.
#[derive(Clone, Copy)]
pub struct Sums {
    pub on_road: u32,
    pub at_ramps: u64,
}

// Adds each ramp's release to its cell's held count, and stores its next queue; `sent` is the sum of the held counts before.
pub fn add_releases(
    n: usize,
    ramps: usize,
    cell: &[u32; 64],
    release: &[u32; 65],
    waiting: &[u32; 65],
    sent: u32,
    state: &mut [[u32; 64]; 4],
) -> Sums
    requires { AddLent n ramps sent cell.now release.now waiting.now (held_col state.old) (queue_col state.old) × (length state.old ≡ 4) }
    ensures by_index { (give wait : ℕ → ℕ)
        → AddRequires give wait n ramps cell.now release.now waiting.now (held_col state.old) (queue_col state.old)
        → AddGives give wait n (held_col state.old) (queue_col state.old) (held_col state.new) (queue_col state.new)
        sent result.on_road result.at_ramps }
    ensures kept { SumsKept state.old state.new }
    ensures small { (result.on_road ≤ most_on_road) × (result.at_ramps ≤ most_at_ramps) }
{
    let mut on_road = sent;
    let mut at_ramps: u64 = 0;
    let mut j = 0;
    while j < ramps {
        let i = cell[j] as usize;
        let given = release[j];
        let left = waiting[j];
        state[HELD][i] = state[HELD][i] + given;
        state[QUEUE][i] = left;
        on_road = on_road + given;
        at_ramps = at_ramps + left as u64;
        j += 1;
    }
    Sums {
        on_road: on_road,
        at_ramps: at_ramps,
    }
}
