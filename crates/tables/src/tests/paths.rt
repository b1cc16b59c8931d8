//! Files and folders of the file system.

use super::Outcome;
use std::alloc::Global;
use std::test::Fail;
use std::{env, fs};
use zeb_marc::Source;
use zeb_paths::{Disk, Paths, Walk};

/// The files' paths that a walk gives, with a space before each.
fn put_paths(walk: &mut Walk<'_, Disk<'_>>, text: &mut String) -> Outcome {
    for _ in 0..100 {
        match walk.next_file() {
            Ok(Some(path)) => put_path(&path, text)?,
            Ok(None) => return Ok(()),
            Err(_) => return Err(Fail::new("a path that can't be read")),
        }
    }
    Err(Fail::new("too many files"))
}

fn put_path(path: &str, text: &mut String) -> Outcome {
    text.push(' ')?;
    Ok(text.push_str(path)?)
}

/// Reads a source to its end by portions of two bytes, or says that a read failed.
fn put_bytes<R: Source>(source: &mut R, text: &mut String) -> Outcome {
    let mut portion = [0u8; 2];
    for _ in 0..1_000 {
        match source.read(&mut portion) {
            Ok(0) => return Ok(()),
            Ok(count) => text.push_str(str::from_utf8(&portion[..count])?)?,
            Err(_) => return Ok(text.push_str("failed")?),
        }
    }
    Err(Fail::new("too many bytes"))
}

/// Walks over a path.
fn walk(alloc: Global, disk: &Disk<'_>, path: &str, text: &mut String) -> Outcome {
    let named = [String::from_str(alloc, path)?];
    put_paths(&mut Walk::new(alloc, disk, &named)?, text)
}

/// Does a step on a path: what it answers. Of the names in a folder it tells whether they are given.
fn put_answer(alloc: Global, disk: &Disk<'_>, step: (&str, &str), text: &mut String) -> Outcome {
    let (word, path) = step;
    match word {
        "walk" => walk(alloc, disk, path, text),
        "read" => put_bytes(&mut disk.reader(String::from_str(alloc, path)?), text),
        "kind" => Ok(write!(text, "{:?}", disk.kind(path))?),
        "names" => Ok(write!(text, "{}", disk.names(alloc, path).is_ok())?),
        _ => Err(Fail::new("no such step")),
    }
}

/// Files below a folder, and their texts.
static FILES: [(&str, &str); 3] = [("a", "12345"), ("b/c", ""), ("B", "678")];

/// What is answered of them, with `~` for the folder. A folder is told from what isn't there and from what is neither.
static FILED: &str = "\
walk ~ -> ~/B ~/a ~/b/c
read ~/a -> 12345
read ~/b/c ->
read ~/d -> failed
read ~/b -> failed
kind ~/d -> Err(Absent)
names ~/d -> false
kind ~/b -> Ok(Folder)
kind /dev/null -> Err(Neither)";

/// The path of a folder of this process's own.
pub fn own_path(rt: &HostRuntime, name: &str) -> Result<String, Fail> {
    let temporary = env::temp_dir(rt)?;
    let process = std::process::id(rt.process());
    Ok(format!(in rt.alloc(); "{}/{name}-{process}", temporary.as_str())?)
}

fn write_files(rt: &HostRuntime, root: &str) -> Outcome {
    fs::create_dir_all(rt, [root, "/b"].concat(rt.alloc())?.as_str())?;
    for (name, text) in &FILES {
        fs::write(rt, [root, "/", name].concat(rt.alloc())?.as_str(), *text)?;
    }
    Ok(())
}

/// A line gets its answer.
fn run_line(alloc: Global, disk: &Disk<'_>, line: &str) -> Outcome {
    let (step, wanted) = line.split_once(" ->").ok_or("no answer")?;
    let step = step.split_once(' ').ok_or("no path")?;
    let mut text = String::new(alloc);
    put_answer(alloc, disk, step, &mut text)?;
    if text.trim_ascii_start() == wanted.trim_ascii_start() {
        return Ok(());
    }
    Err(Fail::new(format!(in alloc; "{line}: {text}")?))
}

fn run_lines(rt: &HostRuntime, lines: &str) -> Outcome {
    for line in lines.split('\n') {
        run_line(rt.alloc(), &Disk::new(rt), line)?;
    }
    Ok(())
}

#[test]
fn reads_the_file_system(rt: HostRuntime) -> Outcome {
    let root = own_path(&rt, "paths")?;
    write_files(&rt, &root)?;
    run_lines(&rt, &FILED.replace(rt.alloc(), '~', &root)?)?;
    Ok(fs::remove_dir_all(&rt, &root)?)
}
