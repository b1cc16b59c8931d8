//! How many records postings are of.
ghost use Rattle.std.specs.Prelude.{◌≡◌, ◌+◌, ◌^◌, ◌<◌};
ghost use Rattle.zeb_blocks.specs.PrivateRecords.{records_after};
ghost use Rattle.zeb_blocks.specs.Records.{record_count};

use crate::postings::Posting;

/// How many records postings are of, where those before the last are of `records`, the last of these being of `newest`, and the last of all is of
/// `sysno`.
#[inline]
pub(crate) fn records_after(records: u64, newest: u64, sysno: u64) -> u64
    requires { records + 1 < 2 ^ 64 }
    ensures { result ≡ records_after records newest sysno }
{
    if records == 0 || sysno != newest {
        records + 1
    } else {
        records
    }
}

/// How many records rising postings are of.
pub fn records_in(list: &[Posting]) -> u64
    ensures { result ≡ record_count list.now }
{
    let mut records: u64 = 0;
    let mut newest: u64 = 0;
    for posting in list {
        records = records_after(records, newest, posting.sysno);
        newest = posting.sysno;
    }
    records
}
