//! Commands that are accepted, and commands that are refused, over packed blocks and over leaves.

use crate::rows::Done;
use command_rows::sessions::Stopped;
use command_rows::stories::tell;
use std::alloc::{AllocError, Global};
use std::test::Fail;
use zeb_engine::Limits;
use zeb_leaves::Leaves;
use zeb_packed::Blocks;
use zeb_register::Layout;

/// Adds a text with `ababab` in place of `<3 ab>`.
fn expand(whole: &mut String, text: &str) -> Result<(), AllocError> {
    let (before, _) = text.split_once('<').unwrap_or((text, ""));
    whole.push_str(before)?;
    for part in text.split('<').skip(1) {
        let (times, behind) = part.split_once('>').unwrap_or((part, ""));
        let (count, repeated) = times.split_once(' ').unwrap_or((times, ""));
        for _ in 0..count.parse::<usize>().unwrap_or(0) {
            whole.push_str(repeated)?;
        }
        whole.push_str(behind)?;
    }
    Ok(())
}

fn tell_once<L: Layout>(alloc: Global, story: &str) -> Done {
    let mut whole = String::new(alloc);
    expand(&mut whole, story)?;
    tell::<L>(alloc, &whole)
}

/// Takes a new store through a story over a layout, again where memory was refused beside its commands: one request at most is refused in a run.
pub fn told<L: Layout>(alloc: Global, story: &str) -> Result<(), Fail> {
    match tell_once::<L>(alloc, story) {
        Err(Stopped::Memory) => Ok(tell_once::<L>(alloc, story)?),
        outcome => Ok(outcome?),
    }
}

/// Each command. Then a plain register is made anew under another profile, upgraded, and made anew under the first profile.
static ACCEPTED: &str = "\
either titles
init; create Default -> ok
update Default moby cafe -> inserted 2 updated 0 deleted 0
find Default @attr 1=4 whale -> hits 1; 1 a1
scan Default 3 2 @attr 1=4 m -> dick 1; moby 1; or 1
analyse cafe -> record 1 1 b2; Title:w 2 1 cafe
dump Default -> bytes of moby+cafe
stat Default -> records 2; last 2; Title:w 6 6
update Default dock+moby+dock -> inserted 0 updated 3 deleted 0
check -> ok
adelete Default cafe+cafe -> inserted 0 updated 0 deleted 1
delete Default moby -> inserted 0 updated 0 deleted 1
check; drop Default -> ok
plain books
init -> ok
update Default moby+cafe -> inserted 2 updated 0 deleted 0
check -> ok
plain titles
reindex; check -> ok
either titles
upgrade; check -> ok
either books
reindex; check; upgrade -> ok";

#[test]
fn memory_or_the_ordinary_answer(rt: HostRuntime) -> Result<(), Fail> {
    told::<Blocks>(rt.alloc(), ACCEPTED)
}

#[test]
fn memory_or_the_ordinary_answer_in_leaves(rt: HostRuntime) -> Result<(), Fail> {
    told::<Leaves>(rt.alloc(), ACCEPTED)
}

/// Changes from readers, those too that are refused, also as a reader fails.
static BY_READERS: &str = "\
either books
init -> ok
from update Default moby cafe -> inserted 2 updated 0 deleted 0
from update Default dock cut -> 1: file 2 record 1: Truncated
from update Default dock cut!; from update Default dock again! -> 3: file 2: read fault
from update Default dock again -> inserted 1 updated 1 deleted 0
from delete Default cafe cafe -> 1: file 2 record 1: unknown identifier
from delete Default cafe bare -> 1: file 2 record 1: NoIdentifier
from adelete Default cafe cafe -> inserted 0 updated 0 deleted 1
from delete Default again moby -> inserted 0 updated 0 deleted 2
check -> ok
dump Default -> bytes of nothing";

#[test]
fn memory_or_the_ordinary_change(rt: HostRuntime) -> Result<(), Fail> {
    told::<Blocks>(rt.alloc(), BY_READERS)
}

#[test]
fn memory_or_the_ordinary_change_in_leaves(rt: HostRuntime) -> Result<(), Fail> {
    told::<Leaves>(rt.alloc(), BY_READERS)
}

/// A register that isn't begun; a database that isn't there; another layout, another profile, another rule for identifiers; names and
/// records; limits.
static REFUSED: &str = "\
either books
check; reindex; upgrade; create Default; drop Default -> 1: register not initialised
update Default moby; find Default moby; scan Default 3 1 moby -> 1: register not initialised
stat Default; dump Default -> 1: register not initialised
init -> ok
drop Default; find Default moby; scan Default 3 1 moby -> 1: diagnostic 235 at 0: Default
stat Default; dump Default -> 1: diagnostic 235 at 0: Default
update Default moby cafe -> inserted 2 updated 0 deleted 0
plain books
stat Default; reindex; upgrade -> 1: register has another format
either titles
update Default moby; check; upgrade -> 1: profile differs from the register's
either by-title
reindex -> 1: identifier rule differs
either books
create Default -> 1: database exists
update Default dock bare -> 1: file 2 record 1: NoIdentifier
update Default dock+cut -> 1: file 1 record 2: Truncated
delete Default moby moby -> 1: file 2 record 1: unknown identifier
delete Default again -> 1: file 1 record 1: unknown identifier
adelete Default moby cut -> 1: file 2 record 1: Truncated
analyse moby+cut -> 1: file 1 record 2: Truncated
check -> ok
limited titles
init -> ok
update Default moby+moby -> 1: too many records
update Default moby -> inserted 1 updated 0 deleted 0
delete Default moby moby; analyse moby moby -> 1: too many records
update Default cafe -> 1: database full
update Default moby -> inserted 0 updated 1 deleted 0
check -> ok";

#[test]
fn memory_or_the_ordinary_refusal(rt: HostRuntime) -> Result<(), Fail> {
    assert_eq!(rt; Limits::GREATEST, Limits::new(1_000_000, 999_999_999));
    told::<Blocks>(rt.alloc(), REFUSED)
}

#[test]
fn memory_or_the_ordinary_refusal_in_leaves(rt: HostRuntime) -> Result<(), Fail> {
    told::<Leaves>(rt.alloc(), REFUSED)
}

/// A block that is cut, a term in no record, and a record that is none: what reads such a row is refused.
static DAMAGED_BLOCKS: &str = "\
either books
init -> ok
update Default moby -> inserted 1 updated 0 deleted 0
alter UPDATE blocks SET data = x'0102' WHERE idx = 0 AND reg = 0 AND term = 'moby' -> ok
alter UPDATE dict SET records = 0 WHERE idx = 0 AND reg = 0 AND term = 'dick' -> ok
alter UPDATE records SET bytes = x'00' -> ok
check; reindex; find Default @attr 1=4 moby -> 1: register damaged
scan Default 3 1 @attr 1=4 d; stat Default -> 1: register damaged
update Default dock; delete Default moby -> 1: register damaged
find Default @attr 1=4 whale -> hits 1; 1 a1";

/// The leaf of the titles' words that is cut, and a record that is none: what reads such a row is refused.
static DAMAGED_LEAVES: &str = "\
either books
init -> ok
update Default moby -> inserted 1 updated 0 deleted 0
alter UPDATE blocks SET data = x'0102' WHERE idx = 0 AND reg = 0 -> ok
alter UPDATE records SET bytes = x'00' -> ok
check; reindex; find Default @attr 1=4 moby; find Default @attr 1=4 whale -> 1: register damaged
scan Default 3 1 @attr 1=4 d; stat Default -> 1: register damaged
update Default dock; delete Default moby -> 1: register damaged
find Default moby; find Default @attr 1=4 @attr 6=3 \"moby dick\" -> hits 1; 1 a1";

#[test]
fn memory_or_the_refusal_of_damage(rt: HostRuntime) -> Result<(), Fail> {
    told::<Blocks>(rt.alloc(), DAMAGED_BLOCKS)
}

#[test]
fn memory_or_the_refusal_of_damage_in_leaves(rt: HostRuntime) -> Result<(), Fail> {
    told::<Leaves>(rt.alloc(), DAMAGED_LEAVES)
}

/// Queries of each form: a word that is cut and one that isn't, words in their order, first in a unit, all of them or any; a whole title; what
/// stands before or behind a text; any entry; numbers, of records too; no words; near words, and pairs.
static FOUND: &str = "\
either books
init -> ok
update Default moby -> inserted 1 updated 0 deleted 0
find Default whale; find Default @attr 1=4 @attr 5=1 mob -> hits 1; 1 a1
find Default @attr 1=4 @attr 5=2 ick; find Default @attr 1=4 @attr 5=3 hal -> hits 1; 1 a1
find Default @attr 1=4 @attr 5=101 m#y; find Default @attr 1=4 \"Moby Dick\" -> hits 1; 1 a1
find Default @attr 1=4 @attr 3=1 or; find Default @attr 1=4 @attr 4=6 \"whale moby\" -> hits 1; 1 a1
find Default @attr 1=4 @attr 4=105 \"whale zzz\" -> hits 1; 1 a1
find Default @attr 1=4 @attr 6=3 MOBY-DICK; find Default @attr 1=4 @attr 2=5 Dick -> hits 1; 1 a1
find Default @attr 1=4 @attr 2=4 @attr 6=2 \"M  D\"; find Default @attr 2=103 \"\" -> hits 1; 1 a1
find Default @attr 1=31 @attr 4=109 @attr 2=4 951; find Default @attr 4=107 001 -> hits 1; 1 a1
find Default @attr 1=31 @attr 4=109 01851; find Default @not moby \"\" -> hits 1; 1 a1
find Default @prox 0 1 1 2 k 2 moby @attr 5=1 di; find Default @or @and a b whale -> hits 1; 1 a1
find Default \"\"; find Default @prox 0 1 1 2 k 2 dick moby -> hits 0
scan Default 3 1 @attr 1=4 @attr 6=3 m; scan Default 1 1 @attr 1=4 @attr 6=3 a -> moby dick 1
scan Default 1 1 @attr 1=31 @attr 4=109 1851 -> 1851 1";

#[test]
fn memory_or_the_ordinary_hits(rt: HostRuntime) -> Result<(), Fail> {
    told::<Blocks>(rt.alloc(), FOUND)
}

#[test]
fn memory_or_the_ordinary_hits_in_leaves(rt: HostRuntime) -> Result<(), Fail> {
    told::<Leaves>(rt.alloc(), FOUND)
}

/// By the numbers of their diagnostics, but for long queries behind the others. No index of titles alone is for any words, which is 116.
static QUERIES: &str = "\
either books
init -> ok
update Default moby -> inserted 1 updated 0 deleted 0
page Default 2 1 @attr 1=4 whale -> 1: diagnostic 13 at 0: 2
find Default @set r -> 1: diagnostic 18 at 0: r
find Default @and x -> 1: diagnostic 108 at 6
find Default moby dick -> 1: diagnostic 108 at 5
find Default \"moby -> 1: diagnostic 108 at 0
find Default @attrset x @attrset y z -> 1: diagnostic 108 at 11
find Default @prox 0 1 0 2 k 2 moby -> 1: diagnostic 108 at 22
scan Default 3 1 @or moby cafe -> 1: diagnostic 110 at 0: @or
find Default @prox 0 1 0 7 k 2 a b -> 1: diagnostic 110 at 0: 7
find Default @prox 0 1 0 2 k 2 a @and b c -> 1: diagnostic 110 at 0: @prox
find Default @attr 7=1 x -> 1: diagnostic 113 at 10: 7
find Default @attr 1=9999 x -> 1: diagnostic 114 at 13: 9999
find Default @attr 2=6 x -> 1: diagnostic 117 at 10: 6
find Default @attr 4=3 x -> 1: diagnostic 118 at 10: 3
find Default @attr 3=4 x -> 1: diagnostic 119 at 10: 4
find Default @attr 5=102 x -> 1: diagnostic 120 at 12: 102
find Default @attr exp-1 1=4 x -> 1: diagnostic 121 at 16: exp-1
find Default @attr 6=4 x -> 1: diagnostic 122 at 10: 4
find Default @attr 1=31 1851 -> 1: diagnostic 123 at 11
find Default @attr 1=31 @attr 4=109 x1 -> 1: diagnostic 126 at 23: x1
find Default @term numeric 5 -> 1: diagnostic 229 at 14: numeric
scan X 3 1 moby -> 1: diagnostic 235 at 0: X
find Default @attr 1=4 \"<65 w->\" -> 1: diagnostic 5 at 10
find Default <101 @and x >y -> 1: diagnostic 6 at 700
find Default <65536 a> -> 1: diagnostic 11 at 0
either titles
reindex -> ok
find Default whale; scan Default 3 1 whale -> 1: diagnostic 116 at 0";

#[test]
fn memory_or_the_ordinary_diagnostic(rt: HostRuntime) -> Result<(), Fail> {
    told::<Blocks>(rt.alloc(), QUERIES)
}

#[test]
fn memory_or_the_ordinary_diagnostic_in_leaves(rt: HostRuntime) -> Result<(), Fail> {
    told::<Leaves>(rt.alloc(), QUERIES)
}
