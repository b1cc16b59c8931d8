//! Lists of commands: one lacks memory as a whole and has run nothing, or a command of it lacks memory and is as one that wasn't given.

use crate::rows::{Done, compare};
use command_rows::lines::command_of;
use command_rows::sessions::{Answer, Stopped, adopted, answer, lacks_memory, prints, told};
use sqlite::{Connection, MemStore};
use std::alloc::{AllocError, Global};
use std::test::Fail;
use tables::queries::state;
use zeb_engine::{Command, Limits, Session};
use zeb_leaves::Leaves;
use zeb_packed::Blocks;
use zeb_register::Layout;

/// A list of commands of each kind, and what is printed for each.
static LIST: &str = "\
init -> ok
find Default @attr 1=4 moby -> 1: diagnostic 235 at 0: Default
create a -> ok
create a -> 1: database exists
update Default moby cafe -> inserted 2 updated 0 deleted 0
find Default @attr 1=4 whale -> hits 1; 1 a1
find Default @attr 1=9999 x -> 1: diagnostic 114 at 13: 9999
scan Default 3 2 @attr 1=4 m -> dick 1; moby 1; or 1
stat Default -> records 2; last 2; Title:w 6 6; Title:p 2 2; Date:n 1 1; Any:w 7 7
dump Default -> bytes of moby+cafe
update Default dock cut -> 1: file 2 record 1: Truncated
analyse moby -> record 1 1 a1; Title:w 2 2 dick; Title:w 2 1 moby; Title:w 3 1 or; \
Title:w 3 2 the; Title:w 3 3 whale; Title:p 2 1 moby dick; Date:n 4 1 1851; Any:w 4 1 c1851; \
Any:w 2 2 dick; Any:w 2 1 moby; Any:w 3 1 or; Any:w 3 2 the; Any:w 3 3 whale
adelete Default moby+again -> inserted 0 updated 0 deleted 1
delete Default moby -> 1: file 1 record 1: unknown identifier
check -> ok
reindex -> ok
upgrade -> ok
drop a -> ok
dump a -> 1: diagnostic 235 at 0: a";

/// Where no command is left out, or none lacks memory.
const NONE: usize = usize::MAX;

/// Adds the commands of the list but one, if it has that.
fn add_commands(alloc: Global, left_out: usize, commands: &mut Vec<Command>) -> Done {
    for (place, line) in LIST.split('\n').enumerate() {
        let (line, _) = line.split_once(" -> ").unwrap_or((line, ""));
        if place != left_out {
            let command = command_of(alloc, line).or(Err(AllocError))?;
            commands.push(command).or(Err(AllocError))?;
        }
    }
    Ok(())
}

/// The answers to commands. A list that lacks memory as a whole has run nothing, and is run again.
fn answers_to<L: Layout>(
    alloc: Global,
    session: &mut Session<MemStore, L>,
    commands: &[Command],
) -> Result<Vec<Answer>, Stopped> {
    for _ in 0..2 {
        match session.run_all(commands) {
            Ok(answers) => return Ok(answers),
            Err(refusal) => prints(alloc, &Err(refusal), "a list", "3: out of memory")?,
        }
        let check = answer(alloc, session, "check");
        prints(alloc, &check, "check", "1: register not initialised")?;
    }
    Err(Stopped::Memory)
}

/// Adds what is printed for each answer but for one that lacks memory, whose place is given. Up to that the whole list is answered as it says.
fn add_answers(
    alloc: Global,
    answers: &[Answer],
    is_whole: bool,
    printed: &mut String,
) -> Result<usize, Stopped> {
    let mut lacking = NONE;
    for (place, (answer, line)) in answers.iter().zip(LIST.split('\n')).enumerate() {
        let (line, wanted) = line.split_once(" -> ").unwrap_or((line, ""));
        if lacks_memory(answer) {
            lacking = place;
            continue;
        }
        if is_whole && lacking == NONE {
            prints(alloc, answer, line, wanted)?;
        }
        writeln!(printed, "{}", told(alloc, answer)?)?;
    }
    Ok(lacking)
}

/// The same for commands that are given to a session.
fn add_run<L: Layout>(
    alloc: Global,
    session: &mut Session<MemStore, L>,
    commands: &[Command],
    is_whole: bool,
    printed: &mut String,
) -> Result<usize, Stopped> {
    let answers = answers_to(alloc, session, commands)?;
    if answers.len() == commands.len() {
        return add_answers(alloc, &answers, is_whole, printed);
    }
    Err(Stopped::Otherwise(String::from_str(alloc, "other answers")?))
}

/// Runs the list but one of its commands over a new register. Adds what is printed, and all rows behind it.
fn ran<L: Layout>(alloc: Global, left_out: usize, printed: &mut String) -> Result<usize, Stopped> {
    let mut commands = Vec::new(alloc);
    add_commands(alloc, left_out, &mut commands)?;
    let new = Connection::open_in_memory(alloc).or(Err(AllocError))?;
    let limits = Limits::GREATEST;
    let mut session = adopted::<MemStore, L>(alloc, new, "books", limits).or(Err(AllocError))?;
    let lacking = add_run(alloc, &mut session, &commands, left_out == NONE, printed)?;
    let rows = state(alloc, &mut session.release()).or(Err(AllocError))?;
    printed.push_str(&rows)?;
    Ok(lacking)
}

/// None of the commands lacks memory: behind one that lacked it, since one allocation at most is refused in a run of this test.
fn lacks_none<L: Layout>(alloc: Global) -> Done {
    let mut printed = String::new(alloc);
    if ran::<L>(alloc, NONE, &mut printed)? == NONE {
        return Ok(());
    }
    let what = String::from_str(alloc, "a command lacks memory again")?;
    Err(Stopped::Otherwise(what))
}

/// The list is answered, or one of its commands lacks memory: then the same is printed, and all rows are the same, as where that isn't given.
fn is_answered<L: Layout>(alloc: Global) -> Done {
    let mut printed = String::new(alloc);
    let lacking = ran::<L>(alloc, NONE, &mut printed)?;
    if lacking == NONE {
        return Ok(());
    }
    let mut wanted = String::new(alloc);
    ran::<L>(alloc, lacking, &mut wanted)?;
    compare(alloc, &printed, &wanted)?;
    lacks_none::<L>(alloc)
}

/// The same, again where memory was refused beside the commands.
fn is_run<L: Layout>(alloc: Global) -> Result<(), Fail> {
    match is_answered::<L>(alloc) {
        Err(Stopped::Memory) => Ok(is_answered::<L>(alloc)?),
        outcome => Ok(outcome?),
    }
}

#[test]
fn a_list_lacks_memory_or_one_command_does(rt: HostRuntime) -> Result<(), Fail> {
    is_run::<Blocks>(rt.alloc())
}

#[test]
fn a_list_in_leaves_lacks_memory_or_one_command_does(rt: HostRuntime) -> Result<(), Fail> {
    is_run::<Leaves>(rt.alloc())
}
