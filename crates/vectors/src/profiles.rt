//! Profiles while a request for memory is refused: the faults of texts, and the text that is kept. What other texts are refused with, and what
//! profiles say of indexes and units, stands in `crates/rows`.

use crate::rows::rows_hold;
use std::alloc::{AllocError, Global};
use std::test::Fail;
use worked_samples::profile;
use zeb_profile::{Profile, ProfileFault, ProfileFaultKind};

/// The sample profile, or the text of another, and the text that is kept of it, or its fault. The last two are faults that no small text has.
static ROWS: &str = "\
foo 1 -> line 1: Directive
melm 245 T,t:w -> line 1: DuplicateTarget
att 4 T%0aatt 4 T -> line 2: DuplicateUse
att 4 T -> line 1: UnknownIndex
all A%0aall A -> line 2: TwoAlls
identifier 001%0aidentifier 001 -> line 2: TwoIdentifiers
identifier 001 -> line 0: NoStore
books -> identifier 001%0aatt 4 Title%0aatt 31 Date%0aatt 1016 Any%0a\
melm 245$a Title:w,Title:p%0amelm 245 Title:w%0amelm 260$c Date:n%0aall Any:w%0a
many indexes -> line 7: TooManyIndexes
memory -> line 7: Memory
";

/// What is kept of a profile, or its fault.
fn told(alloc: Global, text: &str) -> Result<String, AllocError> {
    let memory = ProfileFaultKind::Memory;
    match Profile::read(alloc, profile(text)) {
        Ok(profile) => String::from_str(alloc, profile.text()),
        Err(fault) if fault.line == 0 && fault.kind == memory => Err(AllocError),
        Err(fault) => fault.to_string(alloc),
    }
}

fn answer(alloc: Global, text: &str) -> Result<String, AllocError> {
    let kind = match text {
        "many indexes" => ProfileFaultKind::TooManyIndexes,
        "memory" => ProfileFaultKind::Memory,
        _ => return told(alloc, text),
    };
    ProfileFault { line: 7, kind }.to_string(alloc)
}

#[test]
fn profiles_are_read(rt: HostRuntime) -> Result<(), Fail> {
    rows_hold(rt.alloc(), ROWS, answer)
}
