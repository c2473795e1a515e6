// What the last step of filling leaves for a further record: its releases, which are in the record, and what entered each cell.
ghost use Rattle.std.specs.Prelude.{◌≡◌, ◌-◌, ◌≤◌};
ghost use Rattle.model.specs.Numbers.{fill_of};
ghost use Rattle.model.specs.Flow.{whole, entering_of};
ghost use Rattle.model.specs.Flow.{release_at};
ghost use Rattle.model.specs.Record.{record_row};
ghost use Rattle.fields.specs.FieldsLaws.{HoldsRow};
ghost use Rattle.filling.specs.LastStep.{entered_in, EntriesRequire};

// Puts the releases of step `k` of the first n cells into an array.
pub fn put_releases(bytes: &[u8], n: usize, k: usize, releases: &mut [u32; 64])
    requires { HoldsRow bytes.now n k }
    ensures { releases.new ≡ fill_of (release_at (record_row bytes.now n k)) n releases.old }
{
    let row = fields::row(bytes, n, k);
    let mut i = 0;
    while i < n {
        releases[i] = row[2 * i + 2];
        i += 1;
    }
}

// What entered the next cell with an outflow that F already includes.
fn entered(share: u16, cumulative: u32, outflow: u32) -> u32
    requires { (share ≤ whole) × (outflow ≤ cumulative) }
    ensures { result ≡ entering_of share (cumulative - outflow) outflow }
{
    flow::entering(share, cumulative - outflow, outflow) as u32
}

// Puts what entered each of the first n cells in the step with outflows `y` into an array; `cumulative` is F after it.
pub fn put_entries(
    n: usize,
    share: &[u16; 64],
    cumulative: &[u32; 64],
    y: &[u32],
    entries: &mut [u32; 64],
)
    requires { EntriesRequire n share.now cumulative.now y.now }
    ensures { entries.new ≡ fill_of (entered_in share.now cumulative.now y.now) n entries.old }
{
    let mut entering = y[0];
    let mut i = 0;
    while i < n {
        entries[i] = entering;
        entering = entered(share[i], cumulative[i], y[i + 1]);
        i += 1;
    }
}
