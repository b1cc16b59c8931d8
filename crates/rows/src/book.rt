//! A file of cases, line by line.

use crate::damages::Damages;
use crate::faults::Fault;
use crate::folder::Folder;
use crate::layouts::{Counts, Kept, layouts_of};
use crate::outcomes::{Outcome, shown};
use crate::records::record_of;
use crate::rows::{Line, Row, batch_of, lines_of, script_of};
use crate::runs::{run_batch, run_input, run_words};
use crate::stories::{Told, tell_story};
use crate::texts::{bytes_of, expanded};
use std::alloc::Global;
use std::{mem, slice};

/// A head, what stands behind it, and the lines below it.
#[derive(Drop)]
struct Part<'a> {
    head: &'a str,
    name: &'a str,
    lines: Vec<Line<'a>>,
}

/// What was read of a file of cases.
#[derive(Drop)]
pub struct Book<'a> {
    alloc: Global,
    folder: Folder,
    part: Part<'a>,
    /// The number of the line that is read, or of the one that is at fault.
    pub number: usize,
    /// How many rows were run.
    pub counts: Counts,
    /// A line for each row that differs.
    pub differing: Vec<String>,
}

impl<'a> Book<'a> {
    /// A file of which nothing is read yet.
    pub fn new(alloc: Global) -> Book<'a> {
        Book {
            alloc,
            folder: Folder::new(alloc),
            part: Part {
                head: "folder",
                name: "",
                lines: Vec::new(alloc),
            },
            number: 0,
            counts: Counts::NONE,
            differing: Vec::new(alloc),
        }
    }

    /// Reads a whole file. Its last part is a line `end`, so that a file that was cut isn't passed over.
    pub fn read(&mut self, text: &'a str) -> Result<(), Fault> {
        for (count, line) in text.split_terminator('\n').enumerate() {
            // A part that was run has left the number of one of its own lines here.
            self.number = count.saturating_add(1);
            self.read_line(line)?;
        }
        if self.part.head == "end" && self.part.lines.is_empty() {
            return Ok(());
        }
        Err(Fault::Line("the last line isn't `end`"))
    }

    /// Reads a line: a remark, a line of the part, or the head of the next one.
    fn read_line(&mut self, line: &'a str) -> Result<(), Fault> {
        if line.is_empty() || line.starts_with('#') {
            return Ok(());
        }
        if let Some(text) = line.strip_prefix("  ") {
            let number = self.number;
            self.part.lines.push(Line { number, text })?;
            return Ok(());
        }
        let (head, name) = line.split_once(' ').unwrap_or((line, ""));
        let next = Part {
            head,
            name,
            lines: Vec::new(self.alloc),
        };
        let part = mem::replace(&mut self.part, next);
        self.carry_out(&part)
    }

    fn carry_out(&mut self, part: &Part<'_>) -> Result<(), Fault> {
        match part.head {
            "text" => self.put_text(part),
            "bytes" => self.add_bytes(part),
            "record" => self.add_records(part),
            "sql" => self.set_statements(part),
            "script" => self.run_script(part),
            "inputs" => self.run_inputs(part),
            "words" => self.run_words(part),
            "story" => self.run_story(part.name, part, None),
            "over" => self.run_over(part),
            "damages" => self.run_damages(part),
            _ => self.set(part),
        }
    }

    /// Carries out a head that has no lines below it.
    fn set(&mut self, part: &Part<'_>) -> Result<(), Fault> {
        if !part.lines.is_empty() {
            return Err(Fault::Line("lines below a head that has none"));
        }
        match part.head {
            "folder" => {
                self.folder = Folder::new(self.alloc);
                Ok(())
            }
            "register" => self.folder.set_register(part.name),
            "lost" => self.folder.put(part.name, None),
            _ => Err(Fault::Line("no such head")),
        }
    }

    /// Puts a file of these lines there.
    fn put_text(&mut self, part: &Part<'_>) -> Result<(), Fault> {
        let bytes = self.bytes_of_lines(part, b"\n")?;
        self.folder.put(part.name, Some(bytes))
    }

    /// Adds the bytes of these lines to a file.
    fn add_bytes(&mut self, part: &Part<'_>) -> Result<(), Fault> {
        let bytes = self.bytes_of_lines(part, b"")?;
        self.folder.add(part.name, &bytes)
    }

    /// What the lines of a part stand for, with these bytes behind each.
    fn bytes_of_lines(&mut self, part: &Part<'_>, behind: &[u8]) -> Result<Vec<u8>, Fault> {
        let mut bytes = Vec::new(self.alloc);
        for line in &part.lines {
            self.number = line.number;
            let text = expanded(&self.folder, line.text)?;
            bytes.extend_from_slice(&bytes_of(self.alloc, &text)?)?;
            bytes.extend_from_slice(behind)?;
        }
        Ok(bytes)
    }

    /// Adds the record of these fields to a file, or behind `FILE FIRST LAST` one for each number from the first to the last.
    fn add_records(&mut self, part: &Part<'_>) -> Result<(), Fault> {
        let (path, numbers) = part.name.split_once(' ').unwrap_or((part.name, "0 0"));
        let (first, last) = numbers.split_once(' ').unwrap_or((numbers, ""));
        let (Ok(first), Ok(last)) = (first.parse::<u64>(), last.parse::<u64>()) else {
            return Err(Fault::Line("no numbers of records"));
        };
        let mut records = Vec::new(self.alloc);
        for step in 0..=first.abs_diff(last) {
            let up = first.saturating_add(step);
            let number = if first < last {
                up
            } else {
                first.saturating_sub(step)
            };
            let fields = self.fields_of(part, number)?;
            records.extend_from_slice(&record_of(self.alloc, &fields)?)?;
        }
        self.folder.add(path, &records)
    }

    /// The fields of a part, with the four digits of a number for each `####`.
    fn fields_of(&mut self, part: &Part<'_>, number: u64) -> Result<Vec<String>, Fault> {
        let digits = format!(in self.alloc; "{number:04}")?;
        let mut fields = Vec::new(self.alloc);
        for line in &part.lines {
            self.number = line.number;
            let text = line.text.replace(self.alloc, "####", &digits)?;
            fields.push(expanded(&self.folder, &text)?)?;
        }
        Ok(fields)
    }

    /// Has these lines alter the register, a statement each.
    fn set_statements(&mut self, part: &Part<'_>) -> Result<(), Fault> {
        let mut statements = Vec::new(self.alloc);
        for line in &part.lines {
            statements.push(String::from_str(self.alloc, line.text)?)?;
        }
        self.folder.set_statements(statements);
        Ok(())
    }

    /// The rows of a part.
    fn rows_of(&mut self, part: &Part<'_>, is_words: bool) -> Result<Vec<Row>, Fault> {
        let mut rows = Vec::new(self.alloc);
        for line in part.lines.iter().filter(|line| !line.text.starts_with('#')) {
            self.number = line.number;
            rows.push(Row::read(&self.folder, line, is_words)?)?;
        }
        Ok(rows)
    }

    /// Runs each row as a whole input.
    fn run_inputs(&mut self, part: &Part<'_>) -> Result<(), Fault> {
        let rows = self.rows_of(part, false)?;
        for row in &rows {
            let found = run_input(&self.folder, &bytes_of(self.alloc, &row.input)?)?;
            self.compare(part.name, Kept::Packed, slice::from_ref(row), &found)?;
        }
        self.counts.add(Kept::Packed, rows.len());
        Ok(())
    }

    /// Runs each row by words, over each of the register's layouts.
    fn run_words(&mut self, part: &Part<'_>) -> Result<(), Fault> {
        let rows = self.rows_of(part, true)?;
        for kept in &layouts_of(self.alloc, self.folder.layouts())? {
            self.run_words_over(part.name, *kept, &rows)?;
        }
        Ok(())
    }

    fn run_words_over(&mut self, name: &str, kept: Kept, rows: &[Row]) -> Result<(), Fault> {
        for row in rows {
            let found = run_words(&self.folder, kept, &row.input)?;
            self.compare(name, kept, slice::from_ref(row), &found)?;
        }
        self.counts.add(kept, rows.len());
        Ok(())
    }

    /// Runs all rows as the lines of one script, and those from `init` on as a batch over a register in leaves.
    fn run_script(&mut self, part: &Part<'_>) -> Result<(), Fault> {
        let rows = self.rows_of(part, false)?;
        let found = run_input(&self.folder, &script_of(&self.folder, &rows)?)?;
        self.compare(part.name, Kept::Packed, &rows, &found)?;
        self.counts.add(Kept::Packed, rows.len());
        match rows.iter().position(|row| row.input.as_str() == "init") {
            Some(first) => self.run_behind(part.name, Kept::Leaves, &rows, first),
            None => Ok(()),
        }
    }

    /// Runs the rows from one on as the lines of a batch, over a register in this layout.
    fn run_behind(
        &mut self,
        name: &str,
        kept: Kept,
        rows: &[Row],
        first: usize,
    ) -> Result<(), Fault> {
        let Some((before, rest)) = rows.split_at_checked(first) else {
            return Ok(());
        };
        let batch = batch_of(&self.folder, before, rest)?;
        let found = run_batch(&self.folder, kept, &batch)?;
        self.compare(name, kept, rest, &found)?;
        self.counts.add(kept, rest.len());
        Ok(())
    }

    /// Takes a new store through the lines, over each layout that is named.
    fn run_over(&mut self, part: &Part<'_>) -> Result<(), Fault> {
        let Some((names, name)) = part.name.split_once(' ') else {
            return Err(Fault::Line("no layouts"));
        };
        for kept in &layouts_of(self.alloc, names)? {
            self.run_story(name, part, Some(*kept))?;
        }
        Ok(())
    }

    /// Takes a new store through the lines, of which `either` stands for this layout, if for one. Each counts for the layout of its session.
    fn run_story(
        &mut self,
        name: &str,
        part: &Part<'_>,
        either: Option<Kept>,
    ) -> Result<(), Fault> {
        let layouts = self.tell_lines(name, &part.lines, either)?;
        for kept in &layouts {
            self.counts.add(*kept, 1);
        }
        Ok(())
    }

    /// Has each statement alter a register of its own, in each of the layouts.
    fn run_damages(&mut self, part: &Part<'_>) -> Result<(), Fault> {
        let Some(damages) = Damages::read(part.name) else {
            return Err(Fault::Line("no damages"));
        };
        let layouts = layouts_of(self.alloc, damages.layouts)?;
        for line in part.lines.iter().filter(|line| !line.text.starts_with('#')) {
            self.number = line.number;
            for kept in &layouts {
                self.run_damage(&damages, line, *kept)?;
            }
        }
        Ok(())
    }

    /// Has a statement alter a register of this layout.
    fn run_damage(&mut self, all: &Damages<'_>, line: &Line<'_>, kept: Kept) -> Result<(), Fault> {
        let story = all.story(self.alloc, kept, line.text)?;
        let lines = lines_of(self.alloc, &story, line.number)?;
        self.tell_lines(line.text, &lines, Some(kept))?;
        self.counts.add(kept, 1);
        Ok(())
    }

    /// Takes a new store through these lines, and answers the layout of each that was answered.
    fn tell_lines(
        &mut self,
        name: &str,
        lines: &[Line<'_>],
        either: Option<Kept>,
    ) -> Result<Vec<Kept>, Fault> {
        let Told {
            answered,
            number,
            result,
        } = tell_story(&self.folder, either, lines)?;
        self.number = number;
        let mut layouts = Vec::new(self.alloc);
        for it in &answered {
            self.compare(name, it.kept, slice::from_ref(&it.row), &it.found)?;
            layouts.push(it.kept)?;
        }
        result?;
        Ok(layouts)
    }

    /// Finds each row's answer behind that of the one before it. The first that isn't there is told, and nothing of those behind it.
    fn compare(
        &mut self,
        name: &str,
        kept: Kept,
        rows: &[Row],
        found: &Outcome,
    ) -> Result<(), Fault> {
        let mut output = found.output.as_slice();
        let mut faults = found.faults.as_slice();
        for row in rows {
            let output_left = output.strip_prefix(row.wanted.output.as_slice());
            let faults_left = faults.strip_prefix(row.wanted.faults.as_slice());
            let (Some(behind), Some(faults_behind)) = (output_left, faults_left) else {
                return self.tell(name, kept, row, found, output);
            };
            output = behind;
            faults = faults_behind;
        }
        let Some(last) = rows.last() else {
            return Ok(());
        };
        let status = rows.iter().map(|row| row.wanted.status).max();
        if status == Some(found.status) && last.wanted.may_go_on(output, faults) {
            return Ok(());
        }
        self.tell(name, kept, last, found, output)
    }

    /// Notes that a row over a layout differs, with what came in place of its answer.
    fn tell(
        &mut self,
        name: &str,
        kept: Kept,
        row: &Row,
        found: &Outcome,
        output: &[u8],
    ) -> Result<(), Fault> {
        let came = shown(self.alloc, found.status, output, &found.faults)?;
        let wanted = &row.wanted;
        let wanted = shown(self.alloc, wanted.status, &wanted.output, &wanted.faults)?;
        let (number, input) = (row.number, row.input.get(..200).unwrap_or(&row.input));
        let line = format!(in self.alloc;
            "{number}: {}: {name}: {input}: {came} in place of {wanted}",
            kept.name()
        )?;
        self.differing.push(line)?;
        Ok(())
    }
}
