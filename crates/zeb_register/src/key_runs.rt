//! The run of expected postings of one key, beside a row of `dict`.

ghost use Rattle.std.specs.Prelude.{◌≡◌, ◌≢◌, ◌<◌, ◌≤◌, List, true, false, length, drop, IfSome, MatchOption};
ghost use Rattle.std.specs.List.Sorted.{IsStrictlySortedBy};
ghost use Rattle.zeb_register.specs.Expected.{key_posting_order};
ghost use Rattle.zeb_register.specs.PrivateRowKeys.{IsRunBefore, IsRunFrom};

use crate::KeyPosting;
use crate::expected::is_key;
use crate::values::is_number;
use sqlite::Row;
use zeb_keys::Key;

/// The postings of a key that stand from a place on: where they end, and how many records have one of them.
#[derive(Clone, Copy)]
struct Run {
    end: usize,
    records: u64,
}

/// Where the postings of a key end that stand from a place on, if the row shows this key and how many records have it.
pub(crate) fn run_end(row: &Row, postings: &[KeyPosting], at: usize) -> Option<usize>
    ensures further { IfSome result (λ end. (at < end) × (end ≤ length postings.now)) }
    ensures fits { IsStrictlySortedBy key_posting_order postings.now → MatchOption result
        ((rest : List KeyPosting) → ¬ IsRunBefore row.now (drop at postings.now) rest)
        (λ end. IsRunBefore row.now (drop at postings.now) (drop end postings.now)) }
{
    let first = postings.get(at)?;
    if row.column_count() != 4 || !is_key(row, &first.key) {
        return None;
    }
    let run = run_from(postings, at, &first.key);
    if is_number(row, 3, run.records) {
        Some(run.end)
    } else {
        None
    }
}

/// The postings of the key that stand from a place on.
fn run_from(postings: &[KeyPosting], at: usize, key: &Key) -> Run
    requires { at ≤ length postings.now }
    ensures within { result.end ≤ length postings.now }
    ensures run { IsRunFrom key.now postings.now at result.end result.records }
{
    let mut records: u64 = 0;
    let mut newest: u64 = 0;
    for end in at..postings.len() {
        let expected = &postings[end];
        if !is_same(&expected.key, key) {
            return Run { end, records };
        }
        if records == 0 || expected.posting.sysno != newest {
            records += 1;
            newest = expected.posting.sysno;
        }
    }
    Run {
        end: postings.len(),
        records,
    }
}

/// Whether two keys are one.
fn is_same(one: &Key, other: &Key) -> bool
    ensures same { result ≡ true → one.now ≡ other.now }
    ensures other { result ≡ false → one.now ≢ other.now }
{
    *one == *other
}
