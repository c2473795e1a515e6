// Arrivals and releases: loads, wanted queues, streets, meter laws, and a release put into a record.
ghost use Rattle.std.specs.Prelude.{◌≡◌, length};
ghost use Rattle.model.specs.Numbers.{at};
ghost use Rattle.model.specs.Meter.{wish_of, whole_below};
ghost use Rattle.model.specs.Load.{loading_of, loaded_list, LoadEnds};
ghost use Rattle.model.specs.Wanted.{wanted_of, table_after, WantedEnds};
ghost use Rattle.model.specs.Street.{granting_of, grants_after, GrantEnds};
ghost use Rattle.model.specs.Put.{putting_of, released_record, PutEnds};
ghost use Rattle.exports.specs.Answers.{loaded_for, wanted_for, released_for};
ghost use Rattle.exports.specs.Laws.{float_at, law_of, laws_of};

use crate::{NobyalukLoaded, NobyalukReleased, NobyalukWanted};
use freeway::{Alinea, DemandCapacity, Law, Road, Wanted};

// The kinds of meter laws; every other kind is a fixed rate.
const ALINEA: u8 = 1;

const DEMAND_CAPACITY: u8 = 2;

// How many numbers a law has.
const NUMBERS: usize = 3;

// Fills a list with the arrivals of a seed and a peak.
#[unsafe(no_mangle)]
pub extern "C" fn nobyaluk_load(seed: u32, peak: u32, list: &mut [u32]) -> NobyalukLoaded
    ensures answer { result ≡ loaded_for (loading_of seed peak (length list.old)) }
    ensures list { list.new ≡ loaded_list seed peak list.old }
    ensures ends { LoadEnds seed peak list.old (loading_of seed peak (length list.old)) list.new }
{
    let a = freeway::load(seed, peak, list);
    let refusal = a.refusal;
    NobyalukLoaded {
        number: refusal.number() as u64,
        last: a.last as u64,
    }
}

// Fills a table with the releases that keep a wanted queue, if any do.
#[unsafe(no_mangle)]
pub extern "C" fn nobyaluk_wanted(
    start: u32,
    ceiling: u32,
    rate: u32,
    arrivals: &[u32],
    table: &mut [u32],
) -> NobyalukWanted
    ensures answer { result ≡ wanted_for (wanted_of start ceiling rate arrivals.now (length table.old)) }
    ensures table { table.new ≡ table_after start ceiling rate arrivals.now table.old }
    ensures ends { WantedEnds start ceiling rate arrivals.now table.old
        (wanted_of start ceiling rate arrivals.now (length table.old)) table.new }
{
    let a = freeway::wanted(start, ceiling, rate, arrivals, table);
    match a {
        Wanted::Refused(refusal) => NobyalukWanted {
            number: refusal.number() as u64,
            found: 0,
        },
        Wanted::None => NobyalukWanted {
            number: 0,
            found: 0,
        },
        Wanted::Found => NobyalukWanted {
            number: 0,
            found: 1,
        },
    }
}

// Grants the releases of a step to the ramps of a street, and returns the refusal's number.
#[unsafe(no_mangle)]
pub extern "C" fn nobyaluk_grant(
    limit: u32,
    guarantees: &[u32],
    wishes: &[u32],
    grants: &mut [u32],
) -> u64
    ensures answer { result ≡ granting_of limit guarantees.now wishes.now (length grants.old) }
    ensures grants { grants.new ≡ grants_after limit guarantees.now wishes.now grants.old }
    ensures ends { GrantEnds limit guarantees.now wishes.now grants.old result grants.new }
{
    let refusal = freeway::grant(limit, guarantees, wishes, grants);
    refusal.number() as u64
}

// Puts a release into a record at a step and a cell.
#[unsafe(no_mangle)]
pub extern "C" fn nobyaluk_put(
    bytes: &mut [u8],
    step: usize,
    cell: usize,
    release: u32,
) -> NobyalukReleased
    ensures answer { result ≡ released_for (putting_of bytes.old step cell release) }
    ensures bytes { bytes.new ≡ released_record bytes.old step cell release }
    ensures ends { PutEnds bytes.old step cell release (putting_of bytes.old step cell release) bytes.new }
{
    let a = freeway::put(bytes, step, cell, release);
    let refusal = a.refusal;
    NobyalukReleased {
        number: refusal.number() as u64,
        place: a.place as u64,
    }
}

// The number at i, 0 past the end.
fn real_at(numbers: &[f64], i: usize) -> f64
    ensures { result ≡ float_at numbers.now i }
{
    if i < numbers.len() {
        return numbers[i];
    }
    0.0
}

fn kind_at(kinds: &[u8], i: usize) -> u8
    ensures { result ≡ at kinds.now i }
{
    if i < kinds.len() {
        return kinds[i];
    }
    0
}

#[tactic(auto, unfolding(crate::specs::Laws::law_of))]
pub(crate) fn law(kind: u8, first: f64, second: f64, third: f64) -> Law
    ensures { result ≡ law_of kind first second third }
{
    if kind == ALINEA {
        return Law::Alinea(Alinea {
            gain: first,
            target: second,
        });
    }
    if kind == DEMAND_CAPACITY {
        return Law::DemandCapacity(DemandCapacity {
            capacity: first,
            critical: second,
            least: third,
        });
    }
    Law::Fixed(first)
}

// A law for each cell, from its kind and its three numbers in one list.
pub(crate) fn laws(kinds: &[u8], numbers: &[f64]) -> [Law; 64]
    ensures { result ≡ laws_of kinds.now numbers.now }
{
    let mut all = [Law::Fixed(0.0); 64];
    let mut i = 0;
    while i < Road::CELLS {
        let from = NUMBERS * i;
        let kind = kind_at(kinds, i);
        let first = real_at(numbers, from);
        let second = real_at(numbers, from + 1);
        let third = real_at(numbers, from + 2);
        all[i] = law(kind, first, second, third);
        i += 1;
    }
    all
}

// A law's wish, from the last release, what entered the cell from upstream in the last step, and the cell's held count.
#[unsafe(no_mangle)]
pub extern "C" fn nobyaluk_wish(
    kind: u8,
    first: f64,
    second: f64,
    third: f64,
    last: u32,
    entered: u32,
    held: u32,
) -> f64
    ensures { result ≡ wish_of (law_of kind first second third) last entered held }
{
    let given = law(kind, first, second, third);
    freeway::wish(given, last, entered, held)
}

// The release of a wish.
#[unsafe(no_mangle)]
pub extern "C" fn nobyaluk_release(wish: f64, cap: u32) -> u32
    ensures { result ≡ whole_below wish cap }
{
    freeway::release(wish, cap)
}
