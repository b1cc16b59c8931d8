//! Words, and what is read of them.

use crate::rows::{Done, compare, words_of};
use command_rows::sessions::Stopped;
use std::alloc::{AllocError, Global};
use std::test::Fail;
use zeb_words::{Usage, Words, read_words};

/// Words with one space between, and what is read: the profile's file, the database and the command, or why there is none.
static ROWS: &str = r#"init -> zebra.cfg Default Init(Unsaid)
init --leaves -> zebra.cfg Default Init(Leaves)
stat -> zebra.cfg Default Stat
dump -> zebra.cfg Default Dump
check -> zebra.cfg Default Check
reindex -> zebra.cfg Default Reindex
upgrade -> zebra.cfg Default Upgrade(Unsaid)
upgrade --leaves -> zebra.cfg Default Upgrade(Leaves)
batch -> zebra.cfg Default Batch
shell -> zebra.cfg Default Shell
create Books -> zebra.cfg Default Create(DbName { text: "Books" })
create a -> zebra.cfg Default Create(DbName { text: "a" })
create A-1_b.c -> zebra.cfg Default Create(DbName { text: "A-1_b.c" })
drop Books -> zebra.cfg Default Drop(DbName { text: "Books" })
update a b -> zebra.cfg Default Update { paths: ["a", "b"], shows: false }
-s update a -> zebra.cfg Default Update { paths: ["a"], shows: true }
delete a -> zebra.cfg Default Delete(["a"])
adelete a b c -> zebra.cfg Default Adelete(["a", "b", "c"])
find x -> zebra.cfg Default Find { query: "x", first: 1, count: 20 }
find --first 2 --count 0 x -> zebra.cfg Default Find { query: "x", first: 2, count: 0 }
find x --first=999999999 -> zebra.cfg Default Find { query: "x", first: 999999999, count: 20 }
scan x -> zebra.cfg Default Scan { query: "x", number: 20, position: 1 }
scan --number 3 --position 3 x -> zebra.cfg Default Scan { query: "x", number: 3, position: 3 }
-c other.cfg -d Books stat -> other.cfg Books Stat
-sdBooks -c=other.cfg update a -> other.cfg Books Update { paths: ["a"], shows: true }
# A query or a path that begins with a hyphen stands behind `--`.
find -- -x -> zebra.cfg Default Find { query: "-x", first: 1, count: 20 }
find -x -> refused
update -- -a b -> zebra.cfg Default Update { paths: ["-a", "b"], shows: false }
update -a -> refused
# The program's own checks.
-d a:b stat -> bad usage: Name
create a:b -> bad usage: Name
create café -> bad usage: Name
create / -> bad usage: Name
create  -> bad usage: Name
scan --number 3 --position 4 x -> bad usage: PastNumber
-s stat -> bad usage: ShowsElsewhere
-s shell -> bad usage: ShowsElsewhere
reindex Default -> refused
# The parser's.
find -> refused
find x y -> refused
find --first 0 x -> refused
find --count 1000001 x -> refused
scan --number 1001 x -> refused
update -> refused
stat -d Books -> refused
nothing -> refused
-V -> refused
find --version x -> refused
--help -> help
help -> help
help find -> refused
-d Books help -> refused
find --help -> help
--version -> version
-d Books --version find -> version"#;

fn words_line(alloc: Global, words: &Words) -> Result<String, AllocError> {
    let (config, database) = (words.config.as_str(), words.database.as_str());
    format!(in alloc; "{config} {database} {:?}", words.act)
}

/// Where the parser's advice is in its text it is shown.
fn usage_line(alloc: Global, usage: &Usage) -> Result<String, AllocError> {
    match usage {
        Usage::BadUsage(why) => format!(in alloc; "bad usage: {why:?}"),
        Usage::Refused(text) if text.as_str().contains("tip:") => text.clone(),
        Usage::Refused(_) => String::from_str(alloc, "refused"),
        Usage::Help(text) => String::from_str(alloc, help_or_version(text.as_str())),
        Usage::Memory => Err(AllocError),
    }
}

/// That it is help or the version, or else the text itself.
fn help_or_version(text: &str) -> &str {
    if text == "zebraidx 0.1.0\n" {
        return "version";
    }
    if text.contains("Usage: ") {
        return "help";
    }
    text
}

/// A line is read as it says.
fn is_read(alloc: Global, row: &str) -> Done {
    let (line, wanted) = row.split_once(" -> ").unwrap_or((row, "an arrow"));
    let words = words_of(alloc, line, ' ')?;
    let text = match read_words(alloc, &words) {
        Ok(words) => words_line(alloc, &words),
        Err(usage) => usage_line(alloc, &usage),
    };
    compare(alloc, &text?, wanted)
}

/// One that is refused memory is read once more: so the test passes with any one allocation refused, and doesn't where want of memory is
/// answered without need.
#[test]
fn each_line_is_read(rt: HostRuntime) -> Result<(), Fail> {
    for row in ROWS.split('\n').filter(|row| !row.starts_with('#')) {
        match is_read(rt.alloc(), row) {
            Err(Stopped::Memory) => is_read(rt.alloc(), row)?,
            outcome => outcome?,
        }
    }
    Ok(())
}
