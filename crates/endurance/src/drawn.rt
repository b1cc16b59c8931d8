//! Registers made by commands that are drawn by lot, side by side in each layout, whose rows are then changed by lot. Each command
//! returns; one that is refused leaves all rows as they were; all layouts answer alike; and a check finds a register sound just where
//! nothing was done that harms it.

use crate::rows::{Done, compare};
use command_rows::lots::Draw;
use command_rows::sessions::{Stopped, told};
use command_rows::stories::{asked, new_store};
use sqlite::{Connection, MemStore, params};
use std::alloc::Global;
use std::test::Fail;
use zeb_leaves::Leaves;
use zeb_packed::Blocks;
use zeb_register::{Layout, Rows};

/// How many registers are made in each layout.
const REGISTERS: usize = 500;

/// The profile of each, under the layout in question.
const SETTING: &str = "either books";

/// Of which commands a register is made.
static MAKING: [&str; 13] = [
    "update Default moby",
    "update Default cafe dock",
    "update Default dock+cafe+moby",
    "update Default cafe cut",
    "update Default moby bare",
    "delete Default moby",
    "delete Default cafe",
    "adelete Default moby+cafe",
    "create a",
    "drop a",
    "drop Default",
    "reindex",
    "upgrade",
];

/// What harms no register, by a number of 1 to 9.
static HARMLESS: [&str; 4] = [
    "UPDATE databases SET last = last + ?1",
    "INSERT INTO databases VALUES (100 + ?1, 'empty', ?1)",
    "UPDATE databases SET name = 'another' WHERE name = 'a' AND ?1 > 4",
    "UPDATE meta SET value = value WHERE ?1 > 0",
];

/// What harms each register of which it changes a row, by a number of 1 to 9. A leaf without entries is of no account.
static HARMFUL: [&str; 24] = [
    "DELETE FROM meta WHERE name = 'identifier' AND ?1 > 0",
    "UPDATE meta SET value = '00' || ?1 WHERE name = 'identifier' AND ?1 > 1",
    "INSERT INTO meta VALUES ('more', ?1 || '')",
    "UPDATE databases SET last = 0 - ?1",
    "UPDATE databases SET last = 1000000000 * ?1",
    "UPDATE databases SET name = name || ' ' || ?1",
    "UPDATE databases SET id = id + 1000 * ?1 WHERE id IN (SELECT db FROM records)",
    "UPDATE records SET db = db + 1000 * ?1",
    "UPDATE records SET sysno = sysno + 1000 * ?1",
    "UPDATE records SET sysno = 0 - sysno * ?1",
    "UPDATE records SET ident = ident || ?1",
    "UPDATE records SET bytes = x'00' WHERE sysno > ?1 - 3",
    "DELETE FROM records WHERE sysno % 2 = ?1 % 2",
    "INSERT INTO postings SELECT id, ?1, 0, 'zebra', ?1, 1, 1 FROM databases",
    "INSERT INTO blocks SELECT id, ?1, 0, 'zebra', 0, x'010101' FROM databases",
    "INSERT INTO dict SELECT id, ?1, 1, 'zebra', ?1 FROM databases",
    "UPDATE postings SET seq = seq + 100 * ?1",
    "DELETE FROM postings WHERE seq % 3 = ?1 % 3",
    "UPDATE blocks SET block = block + ?1",
    "UPDATE blocks SET term = term || ?1",
    "UPDATE blocks SET data = x'0102' WHERE ?1 > 0",
    "DELETE FROM blocks WHERE idx = ?1 % 3 AND data <> x''",
    "UPDATE dict SET records = records + ?1",
    "DELETE FROM dict WHERE idx = ?1 % 3",
];

/// What is asked of each register. The last check but one is of a register that may have been harmed, and the last one of one that is begun anew.
static ASKED: [&str; 18] = [
    "check",
    "find Default @attr 1=4 @attr 5=1 d",
    "find Default @or @attr 1=4 cafe @attr 1=31 @attr 4=109 1851",
    "scan Default 5 2 @attr 1=4 m",
    "stat Default",
    "dump Default",
    "analyse moby",
    "update Default dock+cafe",
    "delete Default cafe",
    "adelete Default moby+cafe",
    "create b",
    "drop a",
    "update Default moby",
    "upgrade",
    "reindex",
    "check",
    "init",
    "check",
];

/// What stands between what was printed for the commands that made a register and for all that was asked of it.
const HARMED: &str = "harmed: ";

const SOUND: &str = "sound: ";

type Store = Connection<MemStore>;

/// Asks a line, and adds what is printed for it.
fn step<L: Layout>(
    alloc: Global,
    store: Store,
    line: &str,
    printed: &mut String,
) -> Result<Store, Stopped> {
    let (store, answer) = asked::<MemStore, L>(alloc, store, SETTING, line)?;
    write!(printed, "{line}: {}; ", told(alloc, &answer)?)?;
    Ok(store)
}

/// A register of a layout that commands made.
fn made<L: Layout>(alloc: Global, draw: &mut Draw, printed: &mut String) -> Result<Store, Stopped> {
    let mut store = step::<L>(alloc, new_store(alloc)?, "init", printed)?;
    for _ in 0..=draw.below(7) {
        store = step::<L>(alloc, store, draw.one_of(&MAKING), printed)?;
    }
    Ok(store)
}

/// Whether one of the statements, drawn by lot, changes a row.
fn changes(store: &mut Store, draw: &mut Draw, statements: &[&str]) -> bool {
    let sql = draw.one_of(statements);
    let number = i64::try_from(draw.below(9)).unwrap_or(0).saturating_add(1);
    match store.execute(sql, params![number]) {
        Ok(count) => count > 0,
        Err(_) => false,
    }
}

/// Changes rows, and says whether that does harm.
fn is_harmed(store: &mut Store, draw: &mut Draw) -> bool {
    for _ in 0..draw.below(3) {
        let _ = changes(store, draw, &HARMLESS);
    }
    draw.below(4) > 0 && changes(store, draw, &HARMFUL)
}

/// Makes a register of a layout, changes its rows, and asks everything of it.
fn tell<L: Layout>(alloc: Global, draw: &mut Draw, printed: &mut String) -> Done {
    let mut store = made::<L>(alloc, draw, printed)?;
    let is_harmed = is_harmed(&mut store, draw);
    printed.push_str(if is_harmed { HARMED } else { SOUND })?;
    for line in &ASKED {
        store = step::<L>(alloc, store, line, printed)?;
    }
    Ok(())
}

/// A check tells whether a register was harmed; what wasn't is sound later too, and so is what is begun anew.
fn is_told_apart(alloc: Global, printed: &str) -> Done {
    let is_harmed = printed.contains("harmed: check: 1: register damaged; ");
    let is_sound = printed.contains("sound: check: ok\n; ")
        && printed.ends_with("; check: ok\n; init: ok\n; check: ok\n; ");
    if (is_harmed || is_sound) && printed.ends_with("; init: ok\n; check: ok\n; ") {
        return Ok(());
    }
    compare(alloc, printed, "what a check tells")
}

/// What a register printed as it was made, and what it was asked, if it isn't harmed.
fn parts(printed: &str) -> (&str, &str) {
    match printed.split_once(HARMED) {
        Some((made, _)) => (made, ""),
        None => printed.split_once(SOUND).unwrap_or((printed, "")),
    }
}

/// The same is printed for the commands of both, and for what is asked where neither was harmed: a statement may harm one of them alone.
fn are_alike(alloc: Global, one: &str, other: &str) -> Done {
    let (made, asked) = parts(one);
    let (other_made, other_asked) = parts(other);
    compare(alloc, made, other_made)?;
    if asked.is_empty() || other_asked.is_empty() {
        return Ok(());
    }
    compare(alloc, asked, other_asked)
}

/// What a register of a layout printed.
fn drawn<L: Layout>(alloc: Global, draw: &mut Draw) -> Result<String, Stopped> {
    let mut printed = String::new(alloc);
    tell::<L>(alloc, draw, &mut printed)?;
    is_told_apart(alloc, &printed)?;
    Ok(printed)
}

/// Makes a register in each layout by the same commands, changes their rows by the same statements, and asks everything of each.
fn all_drawn(alloc: Global, draw: &mut Draw) -> Done {
    let (mut again, mut once_more) = (*draw, *draw);
    let plain = drawn::<Rows>(alloc, draw)?;
    let packed = drawn::<Blocks>(alloc, &mut again)?;
    let leaves = drawn::<Leaves>(alloc, &mut once_more)?;
    are_alike(alloc, &plain, &packed)?;
    are_alike(alloc, &plain, &leaves)?;
    are_alike(alloc, &packed, &leaves)
}

#[test]
fn registers_drawn_by_lot_answer_alike_and_are_told_apart(rt: HostRuntime) -> Result<(), Fail> {
    let mut draw = Draw::new();
    for _ in 0..REGISTERS {
        all_drawn(rt.alloc(), &mut draw)?;
    }
    Ok(())
}
