// Meter laws: the wish of a law, and the release of a wish.
#![tactic(auto)]

ghost use Rattle.std.specs.Prelude.{◌≡◌, ◌<◌};
ghost use Rattle.std.specs.Float.Ieee.Scale.{finite};
ghost use Rattle.model.specs.Road.{most_cells};
ghost use Rattle.model.specs.Meter.{alinea_of, demand_capacity_of, wish_of, whole_below, law_finite, law_fault_of};
ghost use Rattle.meter.specs.LawColumns.{law_by, law_in, InColumns};

use model::{Alinea, DemandCapacity, Law, Road};

// ALINEA's wish: last release + gain × (target − held).
#[tactic(auto, unfolding(model::specs::Meter::alinea_of))]
fn alinea_wish(p: Alinea, last: u32, held: u32) -> f64
    ensures { result ≡ alinea_of p last held }
{
    (last as f64) + p.gain * (p.target - (held as f64))
}

// Demand-capacity's wish: capacity less what entered if held is at most critical, else the least rate.
fn capacity_wish(p: DemandCapacity, entered: u32, held: u32) -> f64
    ensures { result ≡ demand_capacity_of p entered held }
{
    if (held as f64) <= p.critical {
        p.capacity - (entered as f64)
    } else {
        p.least
    }
}

// The wish of a law, from the last release, what entered the cell from upstream in the last step, and the cell's held count.
#[tactic(auto, unfolding(model::specs::Meter::wish_of))]
pub fn wish(law: Law, last: u32, entered: u32, held: u32) -> f64
    ensures { result ≡ wish_of law last entered held }
{
    match law {
        Law::Fixed(rate) => rate,
        Law::Alinea(p) => alinea_wish(p, last, held),
        Law::DemandCapacity(p) => capacity_wish(p, entered, held),
    }
}

// The release of a wish: the greatest whole number not above the wish, at most the cap.
pub fn release(wish: f64, cap: u32) -> u32
    ensures { result ≡ whole_below wish cap }
{
    if (cap as f64) <= wish {
        return cap;
    }
    if 0.0 <= wish {
        return std::num::truncating_f64_to_u64(wish) as u32;
    }
    0
}

// Whether x is neither infinite nor a NaN.
fn is_finite(x: f64) -> bool
    ensures { result ≡ finite x }
{
    x - x == 0.0
}

// Whether each number of a law is finite.
#[tactic(auto, unfolding(model::specs::Meter::law_finite))]
fn law_finite(law: Law) -> bool
    ensures { result ≡ law_finite law }
{
    match law {
        Law::Fixed(rate) => is_finite(rate),
        Law::Alinea(p) => is_finite(p.gain) & is_finite(p.target),
        Law::DemandCapacity(p) => {
            is_finite(p.capacity) & (is_finite(p.critical) & is_finite(p.least))
        }
    }
}

// The lowest cell, from 1 to n, that has a ramp and a law with a number that isn't finite, or 0.
pub fn law_fault(laws: [Law; 64], ramp: [u16; 64], n: usize) -> usize
    ensures { result ≡ law_fault_of laws ramp n }
{
    let mut i = 0;
    while i < n {
        // Past the arrays there is no ramp.
        if Road::CELLS <= i {
            return 0;
        }
        let law = laws[i];
        if !((ramp[i] == 0) | law_finite(law)) {
            return i + 1;
        }
        i += 1;
    }
    0
}

// A law's kind and numbers: kind 1 is ALINEA, kind 2 demand-capacity, and every other kind a fixed rate.
#[derive(Clone, Copy)]
struct LawParts {
    kind: u8,
    first: f64,
    second: f64,
    third: f64,
}

#[tactic(auto, unfolding(crate::specs::LawColumns::law_by))]
fn parts(law: Law) -> LawParts
    ensures { law_by result.kind result.first result.second result.third ≡ law }
{
    match law {
        Law::Fixed(rate) => LawParts {
            kind: 0,
            first: rate,
            second: 0.0,
            third: 0.0,
        },
        Law::Alinea(p) => LawParts {
            kind: 1,
            first: p.gain,
            second: p.target,
            third: 0.0,
        },
        Law::DemandCapacity(p) => LawParts {
            kind: 2,
            first: p.capacity,
            second: p.critical,
            third: p.least,
        },
    }
}

// The law with a kind and its numbers.
#[tactic(auto, unfolding(crate::specs::LawColumns::law_by))]
fn law_of(kind: u8, first: f64, second: f64, third: f64) -> Law
    ensures { result ≡ law_by kind first second third }
{
    if kind == 1 {
        return Law::Alinea(Alinea {
            gain: first,
            target: second,
        });
    }
    if kind == 2 {
        return Law::DemandCapacity(DemandCapacity {
            capacity: first,
            critical: second,
            least: third,
        });
    }
    Law::Fixed(first)
}

// Laws in columns, which can be lent: a kind and three numbers for each cell.
#[derive(Clone, Copy)]
pub struct LawColumns {
    pub kinds: [u8; 64],
    pub numbers: [f64; 192],
}

// The laws of all cells in columns.
pub fn columns(laws: [Law; 64]) -> LawColumns
    ensures { InColumns laws result.kinds result.numbers }
{
    let mut kinds = [0u8; 64];
    let mut numbers = [0.0; 192];
    let mut i = 0;
    while i < Road::CELLS {
        let law = laws[i];
        let p = parts(law);
        kinds[i] = p.kind;
        numbers[3 * i] = p.first;
        numbers[3 * i + 1] = p.second;
        numbers[3 * i + 2] = p.third;
        i += 1;
    }
    LawColumns {
        kinds: kinds,
        numbers: numbers,
    }
}

// The law of the cell at `i` in columns.
pub fn law_in(kinds: &[u8; 64], numbers: &[f64; 192], i: usize) -> Law
    requires { i < most_cells }
    ensures { result ≡ law_in kinds.now numbers.now i }
{
    law_of(
        kinds[i],
        numbers[3 * i],
        numbers[3 * i + 1],
        numbers[3 * i + 2],
    )
}
