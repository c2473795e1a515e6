// Many studies of one record, run or filled.
ghost use Rattle.std.specs.Prelude.{◌≡◌};
ghost use Rattle.model.specs.Refusals.{fault_answer};
ghost use Rattle.model.specs.Many.{many_fault, run_answers, run_lists, run_record, fill_answers, fill_lists, fill_record};
ghost use Rattle.exports.specs.Answers.{many_for};
ghost use Rattle.exports.specs.Laws.{laws_of};

use crate::NobyalukMany;
use freeway::Fault;

// The answer of many studies as a whole, as C receives it.
fn many_of(a: Fault) -> NobyalukMany
    ensures { result ≡ many_for (fault_answer a) }
{
    let refusal = a.refusal;
    NobyalukMany {
        number: refusal.number() as u64,
        place: a.place as u64,
    }
}

// Runs a record with each of many tables of arrivals; an entry of 75 numbers per study.
#[unsafe(no_mangle)]
pub extern "C" fn nobyaluk_run_many(
    bytes: &mut [u8],
    lanes: &[u8],
    arrivals: &[u32],
    list: &mut [u32],
    answers: &mut [u64],
) -> NobyalukMany
    ensures answer { result ≡ many_for (many_fault bytes.old arrivals.now answers.old) }
    ensures bytes { bytes.new ≡ run_record bytes.old arrivals.now answers.old }
    ensures list { list.new
        ≡ run_lists bytes.old lanes.now arrivals.now list.old answers.old }
    ensures answers { answers.new
        ≡ run_answers bytes.old lanes.now arrivals.now list.old answers.old }
{
    let a = freeway::run_many(bytes, lanes, arrivals, list, answers);
    many_of(a)
}

// Fills a record with each of many tables of arrivals, by the ramps' laws.
#[unsafe(no_mangle)]
pub extern "C" fn nobyaluk_fill_many(
    bytes: &mut [u8],
    kinds: &[u8],
    numbers: &[f64],
    lanes: &[u8],
    arrivals: &[u32],
    list: &mut [u32],
    answers: &mut [u64],
) -> NobyalukMany
    ensures answer { result ≡ many_for (many_fault bytes.old arrivals.now answers.old) }
    ensures bytes { bytes.new
        ≡ fill_record (laws_of kinds.now numbers.now) bytes.old lanes.now arrivals.now list.old
        answers.old }
    ensures list { list.new
        ≡ fill_lists (laws_of kinds.now numbers.now) bytes.old lanes.now arrivals.now list.old
        answers.old }
    ensures answers { answers.new
        ≡ fill_answers (laws_of kinds.now numbers.now) bytes.old lanes.now arrivals.now list.old
        answers.old }
{
    let given = crate::metering::laws(kinds, numbers);
    let a = freeway::fill_many(bytes, given, lanes, arrivals, list, answers);
    many_of(a)
}
