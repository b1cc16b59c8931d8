//! The headline, said of each layout in which the program begins registers. `Session::run_all` promises it of any layout; here it stands
//! with the layout's name in it, and nothing is left to put in for it.

ghost use Rattle.std.specs.Prelude.{◌≡◌, IfErr, IfOk};
ghost use Rattle.sqlite.specs.Held.{state};
ghost use Rattle.zeb_change.specs.Conditions.{conditions};
ghost use Rattle.zeb_engine.specs.Crashes.{RunLasts};
ghost use Rattle.zeb_engine.specs.Headline.{Headline};
ghost use Rattle.zeb_register.specs.Formats.{packed_blocks, packed_leaves, version_of};

use sqlite::Alter;
use zeb_change::Refusal;
use zeb_engine::{Command, Reply, Session};
use zeb_leaves::Leaves;
use zeb_packed::Blocks;

/// Carries out commands in turn over a register in leaves, as `init --leaves` begins it, also after a refusal, and answers one for each.
///
/// Where the tables were the image of what was held, and the disk gave back what was written to it, the answers are those that the
/// definition of each command gives, on what the ones before it left: each accepted find, scan and stat is what reading the kept records
/// gives, a refused command changes nothing of what is held, and the leaves hold just the kept records' postings at the end, if the
/// connection is open. A crash behind the list leaves what the list left; but one command that was refused as a failed store may be found
/// done.
///
/// `Memory` where there is no room for the answers: nothing was carried out then.
pub fn lists_of_commands_over_leaves<S: Alter>(
    session: &mut Session<S, Leaves>,
    commands: &[Command],
) -> Result<Vec<Result<Reply, Refusal>>, Refusal>
    // The headline.
    ensures run { IfOk result (λ answers. Headline
        (conditions (version_of packed_leaves) session.old.profile session.old.limits) commands.now
        answers.items
        (state S.Store session.old.connection) (state S.Store session.new.connection)) }
    // What a crash leaves.
    ensures lasts { RunLasts
        (conditions (version_of packed_leaves) session.old.profile session.old.limits)
        commands.now
        (state S.Store session.old.connection) (state S.Store session.new.connection) result }
    ensures memory { IfErr result (λ refusal. (refusal ≡ Refusal.Memory)
        × (session.new.connection ≡ session.old.connection)) }
{
    session.run_all(commands)
}

/// The same over a register in packed blocks, as `init` begins one where none in leaves stands: the rows of `blocks` and `dict` hold just
/// the kept records' postings and counts at the end, if the connection is open.
///
/// `Memory` where there is no room for the answers: nothing was carried out then.
pub fn lists_of_commands_over_packed_blocks<S: Alter>(
    session: &mut Session<S, Blocks>,
    commands: &[Command],
) -> Result<Vec<Result<Reply, Refusal>>, Refusal>
    // The headline.
    ensures run { IfOk result (λ answers. Headline
        (conditions (version_of packed_blocks) session.old.profile session.old.limits) commands.now
        answers.items
        (state S.Store session.old.connection) (state S.Store session.new.connection)) }
    // What a crash leaves.
    ensures lasts { RunLasts
        (conditions (version_of packed_blocks) session.old.profile session.old.limits)
        commands.now
        (state S.Store session.old.connection) (state S.Store session.new.connection) result }
    ensures memory { IfErr result (λ refusal. (refusal ≡ Refusal.Memory)
        × (session.new.connection ≡ session.old.connection)) }
{
    session.run_all(commands)
}
