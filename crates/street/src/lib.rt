// Several ramps on one street: what each may release in a step.
#![tactic(auto)]

ghost use Rattle.std.specs.Prelude.{◌≡◌, min, length};
ghost use Rattle.model.specs.Refusals.{refusal_number};
ghost use Rattle.model.specs.Street.{GrantRequest, street_frame_ok, street_ok, rest_before, grants_of, granting_of, grants_after, GrantEnds};

use model::{Refusal, Road};

fn smaller(a: u32, b: u32) -> u32
    ensures { result ≡ min a b }
{
    if a < b { a } else { b }
}

// The tests of 24 on the counts and on the limit.
fn frame_within(limit: u32, ramps: usize, wishes: usize, places: usize) -> bool
    ensures { result ≡ street_frame_ok limit ramps wishes places }
{
    (1 <= ramps)
        & ((ramps <= Road::RAMPS)
            & ((wishes == ramps) & ((places == ramps) & (limit <= Road::RATE))))
}

// Whether all limits of 24 hold.
fn request_within(limit: u32, guarantees: &[u32], wishes: &[u32], places: usize) -> bool
    ensures { result ≡ street_ok limit guarantees.now wishes.now places }
{
    if !frame_within(limit, guarantees.len(), wishes.len(), places) {
        return false;
    }
    if !limits::all_within(guarantees, Road::RATE) {
        return false;
    }
    if !limits::all_within(wishes, Road::RATE) {
        return false;
    }
    numbers::sum(guarantees) <= limit as u64
}

// What remains of the limit after the smaller of wish and guarantee of every ramp.
fn rest(limit: u32, guarantees: &[u32], wishes: &[u32]) -> u32
    requires { GrantRequest limit guarantees.now wishes.now }
    ensures { result ≡ rest_before limit guarantees.now wishes.now 0 }
{
    let mut left = limit;
    let mut i = 0;
    while i < guarantees.len() {
        left -= smaller(wishes[i], guarantees[i]);
        i += 1;
    }
    left
}

// Gives each ramp the smaller of wish and guarantee, then what remains in ramp order.
fn share(limit: u32, guarantees: &[u32], wishes: &[u32], grants: &mut [u32])
    requires { (GrantRequest limit guarantees.now wishes.now) × (length grants.old ≡ length guarantees.now) }
    ensures { grants.new ≡ grants_of limit guarantees.now wishes.now }
{
    let mut left = rest(limit, guarantees, wishes);
    let mut i = 0;
    while i < guarantees.len() {
        let wish = wishes[i];
        let sure = smaller(wish, guarantees[i]);
        let more = smaller(wish - sure, left);
        grants[i] = sure + more;
        left -= more;
        i += 1;
    }
}

// Grants the releases of a step to the ramps of a street; 24 leaves the grants unchanged.
pub fn grant(limit: u32, guarantees: &[u32], wishes: &[u32], grants: &mut [u32]) -> Refusal
    ensures answer { refusal_number result ≡ granting_of limit guarantees.now wishes.now (length grants.old) }
    ensures grants { grants.new ≡ grants_after limit guarantees.now wishes.now grants.old }
    ensures ends { GrantEnds limit guarantees.now wishes.now grants.old (refusal_number result) grants.new }
{
    if !request_within(limit, guarantees, wishes, grants.len()) {
        return Refusal::StreetInput;
    }
    share(limit, guarantees, wishes, grants);
    Refusal::None
}
