// Records: read, written, joined, and their rows of numbers.
ghost use Rattle.std.specs.Prelude.{◌≡◌, length};
ghost use Rattle.model.specs.Reading.{read_answer, reading_within, reading_of};
ghost use Rattle.model.specs.RowNumbers.{row_array, taken_count, taken_list};
ghost use Rattle.model.specs.Writing.{writing_of, target_after, ReadsBack};
ghost use Rattle.model.specs.Joining.{joining_of, joined_target, ReadsJoined};
ghost use Rattle.exports.specs.Answers.{reading_for, written_for};

use crate::{NobyalukReading, NobyalukRow, NobyalukWritten};
use freeway::{Reading, Road, Start};

// Reading's answer, as C receives it.
fn reading_of(a: Reading) -> NobyalukReading
    ensures { result ≡ reading_for (read_answer a) }
{
    let refusal = a.refusal;
    let road = a.road;
    let state = a.state;
    NobyalukReading {
        number: refusal.number() as u64,
        place: a.place as u64,
        steps: a.steps as u64,
        road: road,
        state: state,
    }
}

// Reads a record.
#[unsafe(no_mangle)]
pub extern "C" fn nobyaluk_read(bytes: &[u8]) -> NobyalukReading
    ensures { result ≡ reading_for (reading_of bytes.now) }
{
    reading_of(freeway::read(bytes))
}

// Reads a record for a caller that takes at most `cells` cells and `most` bytes.
#[unsafe(no_mangle)]
pub extern "C" fn nobyaluk_read_within(bytes: &[u8], cells: usize, most: usize) -> NobyalukReading
    ensures { result ≡ reading_for (reading_within cells most bytes.now) }
{
    reading_of(freeway::read_within(bytes, cells, most))
}

// Writes a record into the lent target.
#[unsafe(no_mangle)]
pub extern "C" fn nobyaluk_write(
    road: Road,
    steps: usize,
    start: Start,
    rows: &[u32],
    target: &mut [u8],
) -> NobyalukWritten
    ensures answer { result ≡ written_for (writing_of road steps start rows.now target.old) }
    ensures target { target.new ≡ target_after road steps start rows.now target.old }
    ensures back { result.number ≡ 0 → ReadsBack road steps start rows.now result.count target.new }
{
    let a = freeway::write(road, steps, start, rows, target);
    let refusal = a.refusal;
    NobyalukWritten {
        number: refusal.number() as u64,
        place: a.place as u64,
        count: a.count as u64,
    }
}

// Puts a record's rows into one list, and returns the count of their numbers.
#[unsafe(no_mangle)]
pub extern "C" fn nobyaluk_rows(bytes: &[u8], n: usize, steps: usize, list: &mut [u32]) -> usize
    ensures count { result ≡ taken_count n steps (length list.old) }
    ensures list { list.new ≡ taken_list bytes.now n steps list.old }
{
    freeway::rows(bytes, n, steps, list)
}

// The numbers of one step's row, from any bytes.
#[unsafe(no_mangle)]
pub extern "C" fn nobyaluk_row(bytes: &[u8], n: usize, step: usize) -> NobyalukRow
    ensures { result.numbers ≡ row_array bytes.now n step }
{
    let numbers = freeway::row(bytes, n, step);
    NobyalukRow { numbers: numbers }
}

// Joins two records into the lent target.
#[unsafe(no_mangle)]
pub extern "C" fn nobyaluk_join(
    upstream: &[u8],
    downstream: &[u8],
    share: u16,
    target: &mut [u8],
) -> NobyalukWritten
    ensures answer { result ≡ written_for (joining_of upstream.now downstream.now share target.old) }
    ensures target { target.new ≡ joined_target upstream.now downstream.now share target.old }
    ensures reads { result.number ≡ 0 → ReadsJoined upstream.now downstream.now share result.count target.new }
{
    let a = freeway::join(upstream, downstream, share, target);
    let refusal = a.refusal;
    NobyalukWritten {
        number: refusal.number() as u64,
        place: a.place as u64,
        count: a.count as u64,
    }
}
