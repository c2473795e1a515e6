// The calls that docs/API.md shows, word for word.
#![tactic(auto)]

ghost use Rattle.std.specs.Prelude.{cond, [], min, eqb, replicate, ◌≡◌, List, ℕ, ◌≤◌};
ghost use Rattle.model.specs.Road.{most_long};
ghost use Rattle.model.specs.Running.{running_of, list_after};
ghost use Rattle.model.specs.declared.Law.TheVariants as law;
ghost use Rattle.model.specs.Filling.{filling_of, record_after, filled_list};
ghost use Rattle.example_calls.specs.ReleasedRecord.{released_rows, released_count, released_target};
ghost use Rattle.model.specs.Road.{total_of};
ghost use Rattle.model.specs.Judging.{judging_of};
ghost use Rattle.model.specs.Demand.{Openable};

// Runs a record. No schedule zs that is judged for as many steps has a smaller total.
pub fn least_total(bytes: &[u8], table: &[u8], list: &mut [u32]) -> freeway::Ended
    ensures { Openable bytes.now table.now → (zs : List ℕ)
        → result.state.done ≡ (judging_of bytes.now table.now zs).state.done
        → total_of result.state ≤ total_of (judging_of bytes.now table.now zs).state }
{
    freeway::run(bytes, table, list)
}

// The total time spent of a record with all lanes open, or 0 if it is refused.
pub fn time_spent(bytes: &[u8], list: &mut [u32]) -> u64
    ensures total { result ≡ cond (eqb (running_of bytes.now [] list.old).number 0)
        (min (total_of (running_of bytes.now [] list.old).state) most_long) 0 }
    ensures list { list.new ≡ list_after bytes.now [] list.old }
{
    let ended = freeway::run(bytes, b"", list);
    let refusal = ended.refusal;
    if refusal.number() != 0 {
        return 0;
    }
    let state = ended.state;
    state.total()
}

// Fills a record's releases by ALINEA at every ramp: the number of the refusal, or 0 if they are filled.
pub fn filled(bytes: &mut [u8], gain: f64, target: f64, list: &mut [u32]) -> u8
    ensures number { result ≡ (filling_of (replicate 64 (law.Alinea (record { gain = gain; target = target }))) bytes.old [] list.old).number }
    ensures bytes { bytes.new
        ≡ record_after (replicate 64 (law.Alinea (record { gain = gain; target = target }))) bytes.old [] list.old }
    ensures list { list.new
        ≡ filled_list (replicate 64 (law.Alinea (record { gain = gain; target = target }))) bytes.old [] list.old }
{
    let alinea = freeway::Alinea {
        gain: gain,
        target: target,
    };
    let law = freeway::Law::Alinea(alinea);
    let ended = freeway::fill(bytes, [law; 64], b"", list);
    let refusal = ended.refusal;
    refusal.number()
}

// Whether a schedule obeys the rules of a record with all lanes open.
pub fn obeys(bytes: &[u8], schedule: &[u32]) -> bool
    ensures { result ≡ eqb (judging_of bytes.now [] schedule.now).number 0 }
{
    let ended = freeway::judge(bytes, b"", schedule);
    let refusal = ended.refusal;
    refusal.number() == 0
}

// Writes a record with another release of cell 2 in step 0, number 4 of all rows: how many bytes it takes, 0 after a refusal.
// The list has exactly T × (1 + 2n) numbers.
pub fn released(bytes: &[u8], release: u32, list: &mut [u32], target: &mut [u8]) -> usize
    ensures count { result ≡ released_count bytes.now release list.old target.old }
    ensures list { list.new ≡ released_rows bytes.now release list.old }
    ensures target { target.new ≡ released_target bytes.now release list.old target.old }
{
    let reading = freeway::read(bytes);
    let road = reading.road;
    freeway::rows(bytes, road.n, reading.steps, list);
    if list.len() <= 4 {
        return 0;
    }
    list[4] = release;
    let state = reading.state;
    let written = freeway::write(road, reading.steps, state.start(), list, target);
    written.count
}
