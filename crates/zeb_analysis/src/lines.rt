//! The lines of records that are analysed file after file: only one record's analysis is held at a time.
ghost use Rattle.std.specs.Prelude.{◌≡◌, ◌+◌, ◌<◌, ◌^◌, ◌∷◌, ◌++◌, [], ℕ, List, OnOk, length, map, string_bytes};
ghost use Rattle.zeb_profile.specs.declared.directives.Directive.{Directive};

use crate::analysing::{Analysis, Setting, analyse_next};
use crate::faults::{AnalysisFault, Place};
use crate::printing::analysis_lines;
use std::alloc::{AllocError, Global};
use zeb_marc::{RecordBuf, Slice};
use zeb_profile::Profile;

/// The lines of the records of files, and how many records these are.
#[derive(Debug, Drop)]
pub struct AnalysedLines {
    names: Vec<String>,
    records: u64,
    text: String,
}

impl AnalysedLines {
    ghost use Rattle.zeb_analysis.specs.Lines.{AreLines, GivesLines};
    ghost use Rattle.zeb_analysis.specs.PrivateLines.{StandBehind};

    /// The lines of no file. `names`: the names of the indexes, each at its number.
    pub fn new(alloc: Global, names: Vec<String>) -> AnalysedLines
        ensures { (profile : List Directive) (limit : ℕ)
            → AreLines (map string_bytes names.items) profile limit [] result }
    {
        AnalysedLines {
            names,
            records: 0,
            text: String::new(alloc),
        }
    }

    /// How many records they are of.
    pub fn records(&self) -> u64
        ensures { result ≡ self.now.records }
    {
        self.records
    }

    /// The lines, each ended by LF.
    pub fn into_text(self) -> String
        ensures { result ≡ self.text }
    {
        let AnalysedLines {
            names: _,
            records: _,
            text,
        } = self;
        text
    }

    /// The lines with those of one more file's records behind them.
    ///
    /// `file`: its number, one more than there were files before. `limit`: how many records there may be in all files. What refuses
    /// a record is told as by `analyse`, and then there are no lines any more.
    pub fn with_file(
        mut self,
        alloc: Global,
        profile: &Profile,
        limit: u64,
        file: u64,
        bytes: &[u8],
    ) -> Result<AnalysedLines, AnalysisFault>
        ensures { (names texts : List (List ℕ)) → file ≡ length texts + 1
            → AreLines names profile.now limit texts self
            → GivesLines names profile.now limit (texts ++ bytes.now ∷ []) result }
    {
        let setting = Setting {
            alloc,
            profile,
            limit,
        };
        let mut buffer = RecordBuf::new(alloc)?;
        let mut left = Slice::new(bytes);
        let mut nth = 1;
        while let Some(analysis) = analyse_next(
            &setting,
            self.records,
            Place { file, nth },
            &mut left,
            &mut buffer,
        )? {
            self.push(alloc, &analysis)?;
            nth += 1;
        }
        Ok(self)
    }

    /// Puts a record's lines behind the others.
    fn push(&mut self, alloc: Global, analysis: &Analysis) -> Result<(), AllocError>
        requires { self.old.records + 1 < 2 ^ 64 }
        ensures { OnOk result (StandBehind self.old (analysis.now ∷ []) self.new) }
    {
        let lines = analysis_lines(alloc, &self.names, analysis)?;
        self.text.push_str(lines.as_str())?;
        self.records += 1;
        Ok(())
    }
}
