// The numbers of a record's row, from any bytes, and all rows in one list, as writing takes them.
#![tactic(auto)]

ghost use Rattle.std.specs.Prelude.{◌≡◌, ◌≤◌, ◌<◌, length, take};
ghost use Rattle.model.specs.Road.{most_cells, most_steps};
ghost use Rattle.model.specs.Record.{version_of, row_numbers};
ghost use Rattle.model.specs.RowNumbers.{entry_or, numbers_at, row_array, taken_count, taken_list};

use model::Road;

// The number in the four bytes from `at` on, 0 if they are not all present.
fn entry(bytes: &[u8], at: usize) -> u32
    ensures { result ≡ entry_or bytes.now at }
{
    if bytes.len() < fields::NUMBER_SIZE {
        return 0;
    }
    if bytes.len() - fields::NUMBER_SIZE < at {
        return 0;
    }
    fields::number(bytes, at, fields::NUMBER_SIZE)
}

// The version in byte 4, 0 if there is none.
fn version(bytes: &[u8]) -> u8
    ensures { result ≡ version_of bytes.now }
{
    if bytes.len() <= fields::VERSION_OFFSET {
        return 0;
    }
    fields::version(bytes)
}

// The row's 1 + 2n numbers, then 0.
fn numbers(bytes: &[u8], n: usize, t: usize) -> [u32; 129]
    requires { (n ≤ most_cells) × (t < most_steps) }
    ensures { result ≡ numbers_at bytes.now n t }
{
    let start = fields::row_start(version(bytes), n, t);
    let mut r = [0u32; 129];
    let mut k = 0;
    while k < 1 + 2 * n {
        r[k] = entry(bytes, start + fields::NUMBER_SIZE * k);
        k += 1;
    }
    r
}

// The numbers of step t's row in the layout of n cells, 0 if the bytes don't hold them.
pub fn row(bytes: &[u8], n: usize, t: usize) -> [u32; 129]
    ensures { result ≡ row_array bytes.now n t }
{
    if Road::CELLS < n {
        return [0; 129];
    }
    if Road::STEPS <= t {
        return [0; 129];
    }
    numbers(bytes, n, t)
}

// Puts the first numbers of a row into a part of the list, as many as it holds.
fn put_numbers(part: &mut [u32], row: [u32; 129])
    requires { length part.old ≤ row_numbers most_cells }
    ensures { part.new ≡ take (length part.old) row }
{
    let mut k = 0;
    while k < part.len() {
        part[k] = row[k];
        k += 1;
    }
}

// Puts the rows of the first steps into a list, one after the other, and returns the count of their numbers; 0 if there is no room.
pub fn rows(bytes: &[u8], n: usize, steps: usize, list: &mut [u32]) -> usize
    ensures count { result ≡ taken_count n steps (length list.old) }
    ensures list { list.new ≡ taken_list bytes.now n steps list.old }
{
    if Road::CELLS < n {
        return 0;
    }
    if Road::STEPS < steps {
        return 0;
    }
    let numbers = 1 + 2 * n;
    if list.len() < steps * numbers {
        return 0;
    }
    let mut from = 0;
    let mut t = 0;
    while t < steps {
        let row = row(bytes, n, t);
        let end = from + numbers;
        put_numbers(&mut list[from..end], row);
        from = end;
        t += 1;
    }
    from
}
