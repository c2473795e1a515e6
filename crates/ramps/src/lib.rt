// One step of filling: the releases that the ramps' meter laws grant, put into the record's bytes.
#![tactic(auto)]

ghost use Rattle.std.specs.Prelude.{◌≡◌, List, ℕ, min, ◌≤◌, ◌<◌};
ghost use Rattle.model.specs.declared.Road.{Road};
ghost use Rattle.model.specs.Road.{most_rate};
ghost use Rattle.model.specs.declared.Law.{Law};
ghost use Rattle.model.specs.Meter.{wish_of, whole_below};
ghost use Rattle.outflows.specs.declared.Ledger.{Ledger};
ghost use Rattle.model.specs.Numbers.{at, fill_of};
ghost use Rattle.model.specs.Road.{most_cells};
ghost use Rattle.ramps.specs.Grants.{meter_in, GrantRequires, GrantLent, GrantGives};
ghost use Rattle.ramps.specs.LastStep.{came_in, CameRequires};

use model::{Law, Road};
use passes::{CAME, CUMULATIVE, HELD, QUEUE, RELEASE, ROOM, WAITING};

// The cap of a release: queue plus arrivals, supply and 1,000,000.
fn cap(coming: u32, supply: u32) -> u32
    ensures { result ≡ min coming (min supply most_rate) }
{
    passes::least(coming, passes::least(supply, Road::RATE))
}

// The release of a cell with a ramp: the greatest whole number not above its law's wish, at most the cap.
fn granted(law: Law, last: u32, entered: u32, held: u32, cap: u32) -> u32
    ensures { result ≡ whole_below (wish_of law last entered held) cap }
{
    let wish = meter::wish(law, last, entered, held);
    meter::release(wish, cap)
}

// The last release of each listed cell.
pub fn last_releases(ramps: usize, cell: &[u32; 64], releases: &[u32; 64], release: &mut [u32; 65])
    requires { (ramps ≤ most_cells) × ((j : ℕ) → j < ramps → at cell.now j < most_cells) }
    ensures { release.new ≡ fill_of (λ j. at releases.now (at cell.now j)) ramps release.old }
{
    let mut j = 0;
    while j < ramps {
        release[j] = releases[cell[j] as usize];
        j += 1;
    }
}

// All that has come into each of the first n cells, except what entered in the last step: held + F less what entered in that step.
pub fn came_before<'a>(
    n: usize,
    held: &'a [u32; 64],
    cumulative: &'a [u32; 64],
    entries: &'a [u32; 64],
    came: &mut [u32; 65],
)
    requires { CameRequires n held.now cumulative.now entries.now }
    ensures { came.new ≡ fill_of (came_in held.now cumulative.now entries.now) n came.old }
{
    let mut i = 0;
    while i < n {
        came[i] = held[i] + cumulative[i] - entries[i];
        i += 1;
    }
}

// Grants the releases of the listed cells in the step whose row starts at `start`, and puts them into the bytes. The rooms are the supplies, and
// are reduced by the releases; the columns of releases and of waiting receive each listed cell's release and its queue after it. The column
// `CAME` holds all that has come into a cell except what entered in the last step: held + F exceeds it by that.
pub fn grant<'a>(
    bytes: &mut [u8],
    start: usize,
    ramps: usize,
    cell: &[u32; 64],
    kinds: &'a [u8; 64],
    numbers: &'a [f64; 192],
    state: &[[u32; 64]; 4],
    work: &mut [[u32; 65]; 5],
)
    requires { GrantLent bytes.old start ramps cell.now kinds.now numbers.now state.now work.old }
    ensures { (laws : List Law) (r : Road) (l : Ledger) (releases entries : List ℕ) (k : ℕ)
        → GrantRequires laws r (meter_in l state.now releases entries) bytes.old k start ramps cell.now kinds.now
        numbers.now work.old
        → GrantGives laws r (meter_in l state.now releases entries) bytes.old k ramps cell.now bytes.new
        work.new }
{
    let mut j = 0;
    while j < ramps {
        let i = cell[j] as usize;
        let from = start + fields::NUMBER_SIZE + fields::RATES_SIZE * i;
        let arrivals = fields::number(bytes, from, fields::NUMBER_SIZE);
        let coming = state[QUEUE][i] + arrivals;
        let supply = work[ROOM][i];
        let count = state[HELD][i];
        let into = count + state[CUMULATIVE][i];
        let entered = into - work[CAME][i];
        let law = meter::law_in(kinds, numbers, i);
        let given = granted(law, work[RELEASE][j], entered, count, cap(coming, supply));
        fields::put_number(bytes, from + fields::NUMBER_SIZE, given);
        work[ROOM][i] = supply - given;
        work[RELEASE][j] = given;
        work[WAITING][j] = coming - given;
        work[CAME][i] = into + given;
        j += 1;
    }
}
