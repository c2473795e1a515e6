// A record's bytes, put into a target part by part.
#![tactic(auto)]

ghost use Rattle.std.specs.Prelude.{◌+◌, ◌*◌, ◌≤◌, length};
ghost use Rattle.model.specs.Numbers.{concat_of, row_at};
ghost use Rattle.numbers.specs.PlacedText.{Puts};
ghost use Rattle.model.specs.Road.{most_cells, start_state};
ghost use Rattle.model.specs.Record.{header_size, cell_size, number_size, row_numbers, row_size};
ghost use Rattle.fields.specs.HeaderLaws.{Counts};
ghost use Rattle.model.specs.Encoding.{header_of, cell_of, numbers_of, cell_bytes, row_bytes, record_of, given_study};
ghost use Rattle.encoding.specs.Encoding.{Rows, Fits};

use model::{Road, Start};

// Puts the header: the count of bytes after its first field, the version, n, T, the version's seconds, the gate's capacity and queue.
pub fn put_header(
    target: &mut [u8],
    version: u8,
    n: usize,
    steps: usize,
    seconds: u16,
    gate_capacity: u32,
    gate_queue: u32,
) -> usize
    requires { (Counts n steps) × (header_size version ≤ length target.old) }
    ensures { Puts target.old 0 (header_of version n steps seconds gate_capacity gate_queue) target.new result }
{
    let size = fields::row_start(version, n, steps);
    let to_version = fields::put_number(target, 0, (size - fields::COUNT_SIZE) as u32);
    let to_cells = fields::put_byte(target, to_version, version);
    let to_steps = fields::put_byte(target, to_cells, n as u8);
    let to_seconds = fields::put_short(target, to_steps, steps as u16);
    let to_capacity = fields::put_seconds(target, to_seconds, version, seconds);
    let to_queue = fields::put_number(target, to_capacity, gate_capacity);
    fields::put_number(target, to_queue, gate_queue)
}

// Puts a cell: v, w, b and the ramp mark, then J, C, held and the ramp's queue.
fn put_cell(
    target: &mut [u8],
    at: usize,
    speed: u16,
    wave: u16,
    share: u16,
    ramp: u16,
    jam: u32,
    capacity: u32,
    held: u32,
    queue: u32,
) -> usize
    requires { at + cell_size ≤ length target.old }
    ensures { Puts target.old at (cell_of speed wave share ramp jam capacity held queue) target.new result }
{
    let to_wave = fields::put_short(target, at, speed);
    let to_share = fields::put_short(target, to_wave, wave);
    let to_ramp = fields::put_short(target, to_share, share);
    let to_jam = fields::put_short(target, to_ramp, ramp);
    let to_capacity = fields::put_number(target, to_jam, jam);
    let to_held = fields::put_number(target, to_capacity, capacity);
    let to_queue = fields::put_number(target, to_held, held);
    fields::put_number(target, to_queue, queue)
}

// Puts the cells, one after the other.
pub fn put_cells(target: &mut [u8], at: usize, road: Road, start: Start) -> usize
    requires { (road.n ≤ most_cells) × (at + road.n * cell_size ≤ length target.old) }
    ensures { Puts target.old at (concat_of (cell_bytes road (start_state start)) road.n) target.new result }
{
    let n = road.n;
    let mut end = at;
    let mut i = 0;
    while i < n {
        end = put_cell(
            target,
            end,
            road.speed[i],
            road.wave[i],
            road.share[i],
            road.ramp[i],
            road.jam[i],
            road.capacity[i],
            start.held[i],
            start.queue[i],
        );
        i += 1;
    }
    end
}

// Puts the numbers of a row, one after the other.
pub fn put_row(target: &mut [u8], at: usize, row: &[u32]) -> usize
    requires { at + length row.now * number_size ≤ length target.old }
    ensures { Puts target.old at (numbers_of row.now (length row.now)) target.new result }
{
    let mut end = at;
    let mut k = 0;
    while k < row.len() {
        end = fields::put_number(target, end, row[k]);
        k += 1;
    }
    end
}

// Puts the rows of all steps, each of 1 + 2n numbers.
fn put_rows(target: &mut [u8], at: usize, n: usize, rows: &[u32], steps: usize) -> usize
    requires { (Rows rows.now n steps) × (at + steps * row_size n ≤ length target.old) }
    ensures { Puts target.old at (concat_of (row_bytes n (row_at rows.now (row_numbers n))) steps) target.new result }
{
    let numbers = 1 + 2 * n;
    let mut end = at;
    let mut from = 0;
    let mut t = 0;
    while t < steps {
        let to = from + numbers;
        end = put_row(target, end, &rows[from..to]);
        from = to;
        t += 1;
    }
    end
}

// Puts the record's bytes at the start of the target.
pub fn put_record(road: Road, steps: usize, start: Start, rows: &[u32], target: &mut [u8]) -> usize
    requires { Fits (given_study road steps start rows.now) rows.now target.old }
    ensures { Puts target.old 0 (record_of (given_study road steps start rows.now)) target.new result }
{
    let n = road.n;
    let to_cells = put_header(
        target,
        road.version,
        n,
        steps,
        road.seconds,
        road.gate_capacity,
        start.gate_queue,
    );
    let to_rows = put_cells(target, to_cells, road, start);
    put_rows(target, to_rows, n, rows, steps)
}
