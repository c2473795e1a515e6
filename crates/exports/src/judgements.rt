// Judging a schedule, and its states.
ghost use Rattle.std.specs.Prelude.{◌≡◌};
ghost use Rattle.model.specs.Judging.{judging_of};
ghost use Rattle.model.specs.Demand.{AcceptsExactly};
ghost use Rattle.model.specs.Judging.{history_of, held_after, queue_after};
ghost use Rattle.exports.specs.Answers.{ended_for};
ghost use Rattle.model.specs.GoingOn.{judging_on, history_on, held_on, queue_on};

use crate::NobyalukEnded;
use freeway::State;

// Judges a schedule.
#[unsafe(no_mangle)]
pub extern "C" fn nobyaluk_judge(bytes: &[u8], lanes: &[u8], schedule: &[u32]) -> NobyalukEnded
    ensures answer { result ≡ ended_for (judging_of bytes.now lanes.now schedule.now) }
    ensures accepts { AcceptsExactly bytes.now lanes.now schedule.now
        (judging_of bytes.now lanes.now schedule.now) }
{
    let e = freeway::judge(bytes, lanes, schedule);
    crate::ended(e)
}

// Judges a schedule, and writes the held counts and the ramp queues after each step made.
#[unsafe(no_mangle)]
pub extern "C" fn nobyaluk_history(
    bytes: &[u8],
    lanes: &[u8],
    schedule: &[u32],
    held: &mut [u32],
    queue: &mut [u32],
) -> NobyalukEnded
    ensures answer { result ≡ ended_for (history_of bytes.now lanes.now schedule.now held.old queue.old) }
    ensures held { held.new ≡ held_after bytes.now lanes.now schedule.now held.old queue.old }
    ensures queue { queue.new ≡ queue_after bytes.now lanes.now schedule.now held.old queue.old }
{
    let e = freeway::history(bytes, lanes, schedule, held, queue);
    crate::ended(e)
}

// Judges a schedule of the rows of a further record from a state.
#[unsafe(no_mangle)]
pub extern "C" fn nobyaluk_judge_on(
    bytes: &[u8],
    lanes: &[u8],
    from: State,
    schedule: &[u32],
) -> NobyalukEnded
    ensures { result ≡ ended_for (judging_on bytes.now lanes.now from schedule.now) }
{
    let e = freeway::judge_on(bytes, lanes, from, schedule);
    crate::ended(e)
}

// Judges in the same way, and writes the held counts and the ramp queues after each step made.
#[unsafe(no_mangle)]
pub extern "C" fn nobyaluk_history_on(
    bytes: &[u8],
    lanes: &[u8],
    from: State,
    schedule: &[u32],
    held: &mut [u32],
    queue: &mut [u32],
) -> NobyalukEnded
    ensures answer { result ≡ ended_for (history_on bytes.now lanes.now from schedule.now held.old queue.old) }
    ensures held { held.new ≡ held_on bytes.now lanes.now from schedule.now held.old queue.old }
    ensures queue { queue.new ≡ queue_on bytes.now lanes.now from schedule.now held.old queue.old }
{
    let e = freeway::history_on(bytes, lanes, from, schedule, held, queue);
    crate::ended(e)
}
