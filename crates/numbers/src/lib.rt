// Lists of numbers: tests, the first failure, search by halves, sums by halves, rows, tables, and texts put into a list.
#![tactic(auto)]

ghost use Rattle.std.specs.Prelude.{◌≡◌, ◌*◌, ◌≤◌, length};
ghost use Rattle.model.specs.Numbers.{sum_of};

pub fn wide(x: u32) -> u64
    ensures { result ≡ x }
{
    x as u64
}

// The sum of a row, computed as the sum of its two halves.
pub fn sum(row: &[u32]) -> u64
    requires { length row.now ≤ 64 }
    ensures { (result ≡ sum_of row.now) × (result ≤ 4294967295 * length row.now) }
{
    let count = row.len();
    if count == 0 {
        return 0;
    }
    if count == 1 {
        return wide(row[0]);
    }
    let half = count / 2;
    let first = sum(&row[..half]);
    let second = sum(&row[half..]);
    first + second
}
