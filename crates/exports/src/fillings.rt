// Filling a record's releases by its ramps' meter laws.
ghost use Rattle.std.specs.Prelude.{◌≡◌};
ghost use Rattle.model.specs.Demand.{Openable, DemandAndGrounds};
ghost use Rattle.model.specs.Longest.{longest_fill};
ghost use Rattle.model.specs.Filling.{filling_of, record_after, filled_list, OnlyReleases};
ghost use Rattle.exports.specs.Answers.{ended_for, longest_for, filled_for};
ghost use Rattle.model.specs.GoingOn.{progressed, filling_on, record_on, filled_list_on, longest_fill_on, progress_on};
ghost use Rattle.exports.specs.Laws.{laws_of};

use crate::{NobyalukEnded, NobyalukFilled, NobyalukLongest};
use freeway::Progress;

// Fills a record's releases by its ramps' meter laws, and runs it.
#[unsafe(no_mangle)]
pub extern "C" fn nobyaluk_fill(
    bytes: &mut [u8],
    kinds: &[u8],
    numbers: &[f64],
    lanes: &[u8],
    list: &mut [u32],
) -> NobyalukEnded
    ensures answer { result
        ≡ ended_for (filling_of (laws_of kinds.now numbers.now) bytes.old lanes.now list.old) }
    ensures bytes { bytes.new
        ≡ record_after (laws_of kinds.now numbers.now) bytes.old lanes.now list.old }
    ensures list { list.new
        ≡ filled_list (laws_of kinds.now numbers.now) bytes.old lanes.now list.old }
    ensures demand { Openable bytes.old lanes.now
        → DemandAndGrounds bytes.new lanes.now list.new
        (filling_of (laws_of kinds.now numbers.now) bytes.old lanes.now list.old) }
    ensures releases { OnlyReleases bytes.old bytes.new }
{
    let given = crate::metering::laws(kinds, numbers);
    let e = freeway::fill(bytes, given, lanes, list);
    crate::ended(e)
}

// Fills a record with its longest queues.
#[unsafe(no_mangle)]
pub extern "C" fn nobyaluk_fill_longest(
    bytes: &mut [u8],
    kinds: &[u8],
    numbers: &[f64],
    lanes: &[u8],
    list: &mut [u32],
) -> NobyalukLongest
    ensures answer { result
        ≡ longest_for (filling_of (laws_of kinds.now numbers.now) bytes.old lanes.now list.old)
        (longest_fill (laws_of kinds.now numbers.now) bytes.old lanes.now list.old) }
    ensures bytes { bytes.new
        ≡ record_after (laws_of kinds.now numbers.now) bytes.old lanes.now list.old }
    ensures list { list.new
        ≡ filled_list (laws_of kinds.now numbers.now) bytes.old lanes.now list.old }
    ensures demand { Openable bytes.old lanes.now
        → DemandAndGrounds bytes.new lanes.now list.new
        (filling_of (laws_of kinds.now numbers.now) bytes.old lanes.now list.old) }
    ensures releases { OnlyReleases bytes.old bytes.new }
{
    let given = crate::metering::laws(kinds, numbers);
    let a = freeway::fill_longest(bytes, given, lanes, list);
    crate::longest(a)
}

// Fills the rows of a further record from the progress that an earlier one left, with the longest queues.
#[unsafe(no_mangle)]
pub extern "C" fn nobyaluk_fill_on(
    bytes: &mut [u8],
    kinds: &[u8],
    numbers: &[f64],
    lanes: &[u8],
    from: Progress,
    list: &mut [u32],
) -> NobyalukFilled
    ensures answer { result ≡ filled_for
        (filling_on (laws_of kinds.now numbers.now) bytes.old lanes.now (progressed from) list.old)
        (longest_fill_on (laws_of kinds.now numbers.now) bytes.old lanes.now (progressed from) list.old)
        (progress_on (laws_of kinds.now numbers.now) bytes.old lanes.now (progressed from) list.old) }
    ensures bytes { bytes.new
        ≡ record_on (laws_of kinds.now numbers.now) bytes.old lanes.now (progressed from) list.old }
    ensures list { list.new
        ≡ filled_list_on (laws_of kinds.now numbers.now) bytes.old lanes.now (progressed from) list.old }
    ensures state { result.longest.ended.state
        ≡ (progress_on (laws_of kinds.now numbers.now) bytes.old lanes.now (progressed from) list.old).state }
{
    let given = crate::metering::laws(kinds, numbers);
    let a = freeway::fill_on(bytes, given, lanes, from, list);
    let told = a.longest;
    let releases = a.releases;
    let entries = a.entries;
    NobyalukFilled {
        longest: crate::longest(told),
        releases: releases,
        entries: entries,
    }
}
