// Numbers, columns and rows in a record's bytes, and the header's tests of 1, 2, 3, 19 and 26.
#![tactic(auto)]

ghost use Rattle.std.specs.Prelude.{◌≡◌, ◌+◌, ◌*◌, ◌^◌, ◌≤◌, ◌<◌, length, take};
ghost use Rattle.model.specs.Road.{most_cells};
ghost use Rattle.model.specs.Record.{short_size, number_size, version_offset, version_of, seconds_size, seconds_of};
ghost use Rattle.model.specs.Record.{header_size, cell_size, row_start, number_of, column_of, record_row};
ghost use Rattle.fields.specs.FieldsLaws.{HoldsRow};
ghost use Rattle.fields.specs.BytesStored.{StoredBytes};
ghost use Rattle.model.specs.Numbers.{one_of};
ghost use Rattle.model.specs.Reading.{both_versions, length_ok, cells_and_steps_ok, seconds_ok, caller_ok};

use model::Road;

// The versions of the layout: version 2 has two more bytes after byte 7, and everything after them comes two bytes later.
pub const FIRST_VERSION: u8 = 1;

pub const SECOND_VERSION: u8 = 2;

// Sizes in bytes: version 1's header, its first field, a cell, and a cell's two numbers in a row.
pub const HEADER_SIZE: usize = 16;

pub const COUNT_SIZE: usize = 4;

const CELL_SIZE: usize = 24;

pub const RATES_SIZE: usize = 8;

// Sizes of a field: v, w, b, the ramp mark, T and the seconds have two bytes, the other numbers four.
pub const SHORT_SIZE: usize = 2;

pub const NUMBER_SIZE: usize = 4;

// The offsets of the header's fields: the version, n, T, version 2's seconds, and the gate's capacity and queue in version 1.
pub const VERSION_OFFSET: usize = 4;

pub const CELLS_OFFSET: usize = 5;

pub const STEPS_OFFSET: usize = 6;

const SECONDS_OFFSET: usize = 8;

pub const GATE_CAPACITY_OFFSET: usize = 8;

pub const GATE_QUEUE_OFFSET: usize = 12;

// The offsets of a cell's fields: v, w, b, the ramp mark, J, C, held and the ramp's queue.
pub const SPEED_OFFSET: usize = 0;

pub const WAVE_OFFSET: usize = 2;

pub const SHARE_OFFSET: usize = 4;

pub const RAMP_OFFSET: usize = 6;

pub const JAM_OFFSET: usize = 8;

pub const CAPACITY_OFFSET: usize = 12;

pub const HELD_OFFSET: usize = 16;

pub const QUEUE_OFFSET: usize = 20;

fn wide(x: u8) -> u32
    ensures { (result ≡ x) × (result < 256) }
{
    x as u32
}

// The number in the `size` bytes from `i` on, highest byte first.
pub fn number(bytes: &[u8], i: usize, size: usize) -> u32
    requires { (size ≤ 4) × (i + size ≤ length bytes.now) }
    ensures { (result ≡ number_of bytes.now i size) × (result < 256 ^ size) }
{
    let mut r = 0;
    let mut k = 0;
    while k < size {
        let byte = wide(bytes[i + k]);
        r = r * 256 + byte;
        k += 1;
    }
    r
}

// The number in the two bytes from `i` on.
pub fn short(bytes: &[u8], i: usize) -> u16
    requires { i + short_size ≤ length bytes.now }
    ensures { result ≡ number_of bytes.now i short_size }
{
    number(bytes, i, SHORT_SIZE) as u16
}

// The version in byte 4.
pub fn version(bytes: &[u8]) -> u8
    requires { version_offset + 1 ≤ length bytes.now }
    ensures { result ≡ version_of bytes.now }
{
    number(bytes, VERSION_OFFSET, 1) as u8
}

// How many bytes a version has for the step's seconds; everything after them comes that much later.
pub fn seconds_size(version: u8) -> usize
    ensures { result ≡ seconds_size version }
{
    if version == SECOND_VERSION {
        return SHORT_SIZE;
    }
    0
}

// The bytes before the cells.
pub fn header_size(version: u8) -> usize
    ensures { result ≡ header_size version }
{
    HEADER_SIZE + seconds_size(version)
}

// The step's seconds, 0 if the version has none.
pub fn seconds(bytes: &[u8]) -> u16
    requires { header_size (version_of bytes.now) ≤ length bytes.now }
    ensures { result ≡ seconds_of bytes.now }
{
    number(bytes, SECONDS_OFFSET, seconds_size(version(bytes))) as u16
}

// The column of a field of two bytes, at an offset into each of the n cells.
pub fn short_column(bytes: &[u8], offset: usize, n: usize) -> [u16; 64]
    requires { (offset + short_size ≤ cell_size) × ((n ≤ most_cells) × (row_start (version_of bytes.now) n 0 ≤ length bytes.now)) }
    ensures { result ≡ column_of bytes.now offset short_size n }
{
    let header = header_size(version(bytes));
    let mut r = [0u16; 64];
    let mut i = 0;
    while i < n {
        r[i] = short(bytes, header + CELL_SIZE * i + offset);
        i += 1;
    }
    r
}

// The column of a field of four bytes, at an offset into each of the n cells.
pub fn column(bytes: &[u8], offset: usize, n: usize) -> [u32; 64]
    requires { (offset + number_size ≤ cell_size) × ((n ≤ most_cells) × (row_start (version_of bytes.now) n 0 ≤ length bytes.now)) }
    ensures { result ≡ column_of bytes.now offset number_size n }
{
    let header = header_size(version(bytes));
    let mut r = [0u32; 64];
    let mut i = 0;
    while i < n {
        r[i] = number(bytes, header + CELL_SIZE * i + offset, NUMBER_SIZE);
        i += 1;
    }
    r
}

// The byte at which the row of step `t` starts; for T it is the record's size.
pub fn row_start(version: u8, n: usize, t: usize) -> usize
    requires { row_start version n t < 2 ^ 64 }
    ensures { result ≡ row_start version n t }
{
    header_size(version) + CELL_SIZE * n + t * (NUMBER_SIZE + RATES_SIZE * n)
}

// Reads the row of step `t` into the array's first 1 + 2n numbers: gate arrivals, then each cell's arrivals and release.
pub fn read_row(bytes: &[u8], n: usize, t: usize, r: &mut [u32; 129])
    requires { (HoldsRow bytes.now n t) × (1 + 2 * n ≤ length r.old) }
    ensures { take (1 + 2 * n) r.new ≡ record_row bytes.now n t }
{
    let start = row_start(version(bytes), n, t);
    let mut k = 0;
    while k < 1 + 2 * n {
        r[k] = number(bytes, start + NUMBER_SIZE * k, NUMBER_SIZE);
        k += 1;
    }
}

// The row of step `t`, in the first 1 + 2n numbers of an array.
pub fn row(bytes: &[u8], n: usize, t: usize) -> [u32; 129]
    requires { HoldsRow bytes.now n t }
    ensures { take (1 + 2 * n) result ≡ record_row bytes.now n t }
{
    let mut r = [0u32; 129];
    read_row(bytes, n, t, &mut r);
    r
}

// Stores a byte at `at`, and returns the index after it.
pub fn put_byte(target: &mut [u8], at: usize, x: u8) -> usize
    requires { at + 1 ≤ length target.old }
    ensures { StoredBytes target.old at 1 x target.new result }
{
    target[at] = x;
    at + 1
}

// Stores a number of two bytes from `at` on, highest first.
pub fn put_short(target: &mut [u8], at: usize, x: u16) -> usize
    requires { at + short_size ≤ length target.old }
    ensures { StoredBytes target.old at short_size x target.new result }
{
    target[at] = (x / 256 % 256) as u8;
    target[at + 1] = (x % 256) as u8;
    at + SHORT_SIZE
}

// Stores the step's seconds, if the version has them.
pub fn put_seconds(target: &mut [u8], at: usize, version: u8, seconds: u16) -> usize
    requires { at + seconds_size version ≤ length target.old }
    ensures { StoredBytes target.old at (seconds_size version) seconds target.new result }
{
    if version == SECOND_VERSION {
        return put_short(target, at, seconds);
    }
    at
}

// Stores a number of four bytes from `at` on, highest first.
pub fn put_number(target: &mut [u8], at: usize, x: u32) -> usize
    requires { at + number_size ≤ length target.old }
    ensures { StoredBytes target.old at number_size x target.new result }
{
    target[at] = (x / 256 / 256 / 256 % 256) as u8;
    target[at + 1] = (x / 256 / 256 % 256) as u8;
    target[at + 2] = (x / 256 % 256) as u8;
    target[at + 3] = (x % 256) as u8;
    at + NUMBER_SIZE
}

// Whether the length is within its limits and the first field counts the bytes after it.
pub fn length_within(bytes: &[u8]) -> bool
    ensures { result ≡ length_ok both_versions bytes.now }
{
    if bytes.len() < HEADER_SIZE {
        return false;
    }
    if bytes.len() < header_size(version(bytes)) {
        return false;
    }
    if Road::BYTES < bytes.len() {
        return false;
    }
    number(bytes, 0, COUNT_SIZE) as usize == bytes.len() - COUNT_SIZE
}

// Whether a record may have this version.
pub fn version_known(version: u8) -> bool
    ensures { result ≡ one_of both_versions version }
{
    (version == FIRST_VERSION) | (version == SECOND_VERSION)
}

pub fn cells_and_steps_within(n: usize, steps: usize) -> bool
    ensures { result ≡ cells_and_steps_ok n steps }
{
    (1 <= n) & ((n <= Road::CELLS) & ((1 <= steps) & (steps <= Road::STEPS)))
}

// Whether the step's seconds are within their limits; they are tested only in version 2.
pub fn seconds_within(version: u8, seconds: u16) -> bool
    ensures { result ≡ seconds_ok version seconds }
{
    if version == SECOND_VERSION {
        return (1 <= seconds) & (seconds <= Road::SECONDS);
    }
    true
}

// Whether n cells and `size` bytes are within a caller's limits, `cells` and `most`.
pub fn caller_within(cells: usize, most: usize, n: usize, size: usize) -> bool
    ensures { result ≡ caller_ok cells most n size }
{
    (n <= cells) & (size <= most)
}
