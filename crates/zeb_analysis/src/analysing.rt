//! Files of records, analysed record by record.
ghost use Rattle.std.specs.Prelude.{◌≡◌, ◌≢◌, IfOk, IfErr, OnOk, length, map};
ghost use Rattle.zeb_marc.specs.Splits.{next_of};
ghost use Rattle.zeb_analysis.specs.Analysing.{AnalysesTo, IsAnalysisOf, analysed, first_refusal, standing_in};
ghost use Rattle.zeb_analysis.specs.PrivateWalk.{AnalysesNext, Extends, record_at, refused_in};

use crate::faults::{AnalysisFault, Place};
use std::alloc::Global;
use zeb_extract::{identifier, occurrences};
use zeb_keys::Occurrence;
use zeb_marc::{Marc, RecordBuf, Slice, next_record};
use zeb_profile::Profile;

/// One record's analysis.
#[derive(Debug, Drop)]
pub struct Analysis {
    /// Where the record stands.
    pub place: Place,
    /// Its identifier.
    pub ident: String,
    /// What it is found by, in rising order.
    pub occurrences: Vec<Occurrence>,
}

/// What the records of all files are analysed by.
#[derive(Clone, Copy)]
pub(crate) struct Setting<'a> {
    pub(crate) alloc: Global,
    pub(crate) profile: &'a Profile,
    pub(crate) limit: u64,
}

/// The analysis of a record, which has this place, and before which so many were analysed.
fn analyse_record(
    setting: &Setting<'_>,
    before: u64,
    place: Place,
    bytes: &[u8],
) -> Result<Analysis, AnalysisFault>
    ensures passed { OnOk result (refused_in setting.now before place bytes.now ≡ None) }
    ensures ok { IfOk result (λ analysis.
        IsAnalysisOf setting.now.profile.now (record_at place bytes.now) (analysed analysis)) }
    ensures err { IfErr result (λ fault. fault ≢ AnalysisFault.Memory
        → refused_in setting.now before place bytes.now ≡ Some fault) }
{
    if before >= setting.limit {
        return Err(AnalysisFault::TooManyRecords);
    }
    let marc = match Marc::read(bytes) {
        Ok(marc) => marc,
        Err(fault) => return Err(AnalysisFault::Marc { place, fault }),
    };
    let ident = match identifier(setting.alloc, &marc, setting.profile) {
        Ok(ident) => ident,
        Err(fault) => return Err(AnalysisFault::of_identifier(place, fault)),
    };
    Ok(Analysis {
        place,
        ident,
        occurrences: occurrences(setting.alloc, &marc, setting.profile)?,
    })
}

/// The analysis of the next record of a file, which has this place, and before which so many were analysed; `None` behind the last.
pub(crate) fn analyse_next(
    setting: &Setting<'_>,
    before: u64,
    place: Place,
    left: &mut Slice<'_>,
    buffer: &mut RecordBuf,
) -> Result<Option<Analysis>, AnalysisFault>
    ensures { AnalysesNext setting.now before place (next_of left.old) result left.new }
{
    match next_record(left, buffer) {
        Ok(None) => Ok(None),
        Ok(Some(_)) => Ok(Some(analyse_record(setting, before, place, buffer.bytes())?)),
        Err(fault) => Err(AnalysisFault::Marc { place, fault }),
    }
}

/// Puts the analyses of one file's records behind the others.
fn analyse_file(
    setting: &Setting<'_>,
    analyses: &mut Vec<Analysis>,
    buffer: &mut RecordBuf,
    file: u64,
    bytes: &[u8],
) -> Result<(), AnalysisFault>
    ensures ok { OnOk result (Extends setting.now.profile.now setting.now.limit
        (standing_in file bytes.now)
        (map analysed analyses.old.items) (map analysed analyses.new.items)) }
    ensures err { IfErr result (λ fault. fault ≢ AnalysisFault.Memory
        → first_refusal setting.now.profile.now setting.now.limit
        (length (map analysed analyses.old.items)) (standing_in file bytes.now) ≡ Some fault) }
{
    let mut left = Slice::new(bytes);
    let mut nth = 1;
    while let Some(analysis) = analyse_next(
        setting,
        analyses.len() as u64,
        Place { file, nth },
        &mut left,
        buffer,
    )? {
        analyses.push(analysis)?;
        nth += 1;
    }
    Ok(())
}

/// The analyses of the records of files, file after file, each record in its place. Nothing is kept.
///
/// `limit`: how many records at most. The first that refuses ends it: record by record `TooManyRecords` where the limit's
/// number of records stands before it, the record's first fault and the fault of its identifier; and behind a file's last
/// record the fault that stands there. `Memory` may come of any files, and nothing else but these.
pub fn analyse(
    alloc: Global,
    profile: &Profile,
    limit: u64,
    files: &[Vec<u8>],
) -> Result<Vec<Analysis>, AnalysisFault>
    ensures ok { IfOk result (λ analyses.
        AnalysesTo profile.now limit (map (λ file. file.items) files.now)
        (Ok (map analysed analyses.items))) }
    ensures err { IfErr result (λ fault. fault ≢ AnalysisFault.Memory
        → AnalysesTo profile.now limit (map (λ file. file.items) files.now) (Err fault)) }
{
    let setting = Setting {
        alloc,
        profile,
        limit,
    };
    let mut buffer = RecordBuf::new(alloc)?;
    let mut analyses = Vec::new(alloc);
    for (index, bytes) in files.iter().enumerate() {
        let file = index as u64 + 1;
        analyse_file(&setting, &mut analyses, &mut buffer, file, bytes)?;
    }
    Ok(analyses)
}
