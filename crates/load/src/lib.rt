// The stated load for trials: arrivals from a seed, by a generator that wraps at 32 bits.
#![tactic(auto)]

ghost use Rattle.std.specs.Prelude.{◌≡◌, ◌*◌, ◌%◌, ◌≤◌, length};
ghost use Rattle.model.specs.Road.{most_rate};
ghost use Rattle.model.specs.Load.{numbers, next_number, arrival_of, number_after, arrivals_of, load_answer, loading_of, loaded_list, LoadEnds};

use model::{Loaded, Refusal, Road};

// How many numbers 32 bits can hold.
const NUMBERS: u64 = 4294967296;

// How many numbers 16 bits can hold: a number divided by it is its upper 16 bits.
const HALF: u32 = 65536;

const MULTIPLIER: u32 = 1664525;

const INCREMENT: u32 = 1013904223;

// The product of two numbers, wrapping.
fn product(a: u32, b: u32) -> u32
    ensures { result ≡ a * b % numbers }
{
    ((a as u64) * (b as u64) % NUMBERS) as u32
}

// The generator's next number.
fn next(number: u32) -> u32
    ensures { result ≡ next_number number }
{
    std::num::wrapping_add_u32(product(MULTIPLIER, number), INCREMENT)
}

// The arrival that a number gives.
fn arrival(number: u32, peak: u32) -> u32
    requires { peak ≤ most_rate }
    ensures { result ≡ arrival_of number peak }
{
    (((number / HALF) as u64) * ((peak + 1) as u64) / (HALF as u64)) as u32
}

// Fills the list with arrivals, and returns the last number.
fn fill(seed: u32, peak: u32, list: &mut [u32]) -> u32
    requires { peak ≤ most_rate }
    ensures last { result ≡ number_after seed (length list.old) }
    ensures list { list.new ≡ arrivals_of seed peak (length list.old) }
{
    let mut number = seed;
    let mut i = 0;
    while i < list.len() {
        let following = next(number);
        list[i] = arrival(following, peak);
        number = following;
        i += 1;
    }
    number
}

// Fills a list with the arrivals of a seed and a peak; 25 leaves it unchanged.
pub fn load(seed: u32, peak: u32, list: &mut [u32]) -> Loaded
    ensures answer { load_answer result ≡ loading_of seed peak (length list.old) }
    ensures list { list.new ≡ loaded_list seed peak list.old }
    ensures ends { LoadEnds seed peak list.old (load_answer result) list.new }
{
    if Road::RATE < peak {
        return Loaded {
            refusal: Refusal::Peak,
            last: seed,
        };
    }
    let last = fill(seed, peak, list);
    Loaded {
        refusal: Refusal::None,
        last: last,
    }
}
