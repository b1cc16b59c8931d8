//! Laws of batches. They are functions with no code, whose contracts are the laws.
ghost use Rattle.zeb_program.specs.BatchRuns.{BatchIsOneRun, OverIsWritten, ToldIsKnown};

/// A batch is one run. Where the lines of a text are answered, the answers are those of one run of the commands that the lines name, in
/// their order: so each is the definition's on what the commands before it left. What is written is just the texts of these answers, each
/// in its line's place, with the lines for what is no command, and the status is the greatest met. The other way
/// round, what is written for such a run is an answer of the batch.
pub fn a_batch_is_one_run()
    ensures { BatchIsOneRun }
{}

/// Where the paths tell the bytes of each file that a line of a text names, it is known behind each of its lines what the register holds:
/// so all of them are answered, as the law of one run says.
pub fn told_files_leave_nothing_unknown()
    ensures { ToldIsKnown }
{}

/// What is written for lines on a register in memory, as the engine says of them on any tables, can be read without the tables: for a
/// command it is the text of some answer, and for a change by a path that of a reply, where all files at and below it are found, or of a
/// fault.
pub fn lines_are_written_without_tables()
    ensures { OverIsWritten }
{}
