// Lanes as the set bits of a byte: the capacity that the open lanes leave, and the lowest cell that refusal 18 names.
#![tactic(auto)]

ghost use Rattle.std.specs.Prelude.{◌≡◌, ◌+◌, ◌*◌, ◌≤◌, ◌<◌, length};
ghost use Rattle.std.specs.Int.Count.{ones};
ghost use Rattle.model.specs.Numbers.{first_of};
ghost use Rattle.model.specs.Road.{most_cells, most_steps};
ghost use Rattle.model.specs.Lanes.{open_capacity, open_capacities, lanes_ok, lanes_at, built_in, open_in, table_at, table_bytes};

// How many lanes a byte has.
fn count(lanes: u8) -> u64
    ensures { (result ≡ ones lanes) × (result ≤ 8) }
{
    u8::count_ones(lanes) as u64
}

// What the open lanes leave of a cell's capacity; 0 where no lane is built. With all lanes open nothing is counted or divided.
pub fn open_capacity(capacity: u32, built: u8, usable: u8) -> u32
    ensures { result ≡ open_capacity capacity built usable }
{
    if built == 0 {
        return 0;
    }
    if usable == built {
        return capacity;
    }
    let all = count(built);
    let left = capacity as u64 * count(usable) / all;
    if (u32::MAX as u64) < left {
        return u32::MAX;
    }
    left as u32
}

// Whether a lane is built, and every open lane is built.
#[tactic(auto, unfolding(model::specs::Lanes::lanes_ok))]
pub fn lanes_ok(built: u8, usable: u8) -> bool
    ensures { result ≡ lanes_ok built usable }
{
    (1 <= built) & (usable & built == usable)
}

// The lowest of n cells whose lanes don't pass, counted from 0, or n.
pub fn first_cell(built: [u8; 64], usable: [u8; 64], n: usize) -> usize
    requires { n ≤ most_cells }
    ensures { result ≡ first_of (lanes_at built usable) n }
{
    let mut i = 0;
    while i < n {
        if !lanes_ok(built[i], usable[i]) {
            return i;
        }
        i += 1;
    }
    i
}

// Whether the lanes of the cell at i pass in all rows of a table.
fn cell_in_table(table: &[u8], n: usize, steps: usize, i: usize) -> bool
    requires { (length table.now ≡ table_bytes n steps) × (i < n) }
    ensures { result ≡ table_at table.now n steps i }
{
    let built = table[i];
    let mut at = i;
    let mut k = 0;
    while k < steps {
        at += n;
        if !lanes_ok(built, table[at]) {
            return false;
        }
        k += 1;
    }
    true
}

// The lowest cell whose lanes don't pass in some row of a table, counted from 0, or n.
pub fn first_in_table(table: &[u8], n: usize, steps: usize) -> usize
    requires { length table.now ≡ table_bytes n steps }
    ensures { result ≡ first_of (table_at table.now n steps) n }
{
    let mut i = 0;
    while i < n {
        if !cell_in_table(table, n, steps, i) {
            return i;
        }
        i += 1;
    }
    i
}

// The capacities of a step, from its rows of lanes.
pub fn open_capacities(capacity: [u32; 64], built: &[u8], usable: &[u8], n: usize) -> [u32; 64]
    requires { (n ≤ most_cells) × ((n ≤ length built.now) × (n ≤ length usable.now)) }
    ensures { result ≡ open_capacities capacity built.now usable.now n }
{
    let mut left = capacity;
    let mut i = 0;
    while i < n {
        left[i] = open_capacity(capacity[i], built[i], usable[i]);
        i += 1;
    }
    left
}

// The capacities of step k, from a table that is not empty.
pub fn step_capacities(capacity: [u32; 64], table: &[u8], n: usize, k: usize) -> [u32; 64]
    requires { (n ≤ most_cells) × ((k ≤ most_steps) × ((k + 1) * n + n ≤ length table.now)) }
    ensures { result ≡ open_capacities capacity (built_in table.now n) (open_in table.now n k) n }
{
    let from = (k + 1) * n;
    let end = from + n;
    open_capacities(capacity, &table[..n], &table[from..end], n)
}
