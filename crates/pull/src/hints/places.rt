//! On which line of a plant file a path stands.

use std::alloc::{AllocError, Global};

/// The table of a plant file that a line belongs to. Stages, machines and loops are counted from 1, machines in their
/// stage.
#[derive(Clone, Copy, PartialEq)]
pub enum FileTable {
    Top,
    Stage(usize),
    Machine(usize, usize),
    Loop(usize),
    Other,
}

/// How many tables of each name a file has up to a line, the machines of the last stage.
#[derive(Clone, Copy, Default)]
struct Heads {
    stages: usize,
    machines: usize,
    loops: usize,
}

impl Heads {
    /// The table that begins with a line.
    fn table_at(&mut self, line: &str) -> FileTable {
        match line {
            "[[stage]]" => {
                self.stages = self.stages.saturating_add(1);
                self.machines = 0;
                FileTable::Stage(self.stages)
            }
            "[[stage.machine]]" => {
                self.machines = self.machines.saturating_add(1);
                FileTable::Machine(self.stages, self.machines)
            }
            "[[loop]]" => {
                self.loops = self.loops.saturating_add(1);
                FileTable::Loop(self.loops)
            }
            _ => FileTable::Other,
        }
    }
}

/// A fault, as `lint` tells it, with the line of the plant file on which its path stands, where one is found: that of the
/// key in its table, or else that of the table's head.
pub fn with_line(alloc: Global, fault: &str, text: &str) -> Result<String, AllocError> {
    let Some((kind, rest)) = fault.split_once(": ") else {
        return String::from_str(alloc, fault);
    };
    let (path, behind) = match rest.split_once(' ') {
        Some((path, behind)) => (path, behind),
        None => (rest, ""),
    };
    let Some(line) = line_of(text, path) else {
        return String::from_str(alloc, fault);
    };
    match behind.strip_prefix("(") {
        Some(names) => match names.split_once(')') {
            Some((names, behind)) => {
                format!(in alloc; "{kind}: {path} ({names}, line {line}){behind}")
            }
            None => String::from_str(alloc, fault),
        },
        None if behind.is_empty() => format!(in alloc; "{kind}: {path} (line {line})"),
        None => format!(in alloc; "{kind}: {path} (line {line}) {behind}"),
    }
}

/// The line on which a path stands, counted from 1.
fn line_of(text: &str, path: &str) -> Option<usize> {
    let (wanted, key) = table_of(path)?;
    let mut heads = Heads::default();
    let mut table = FileTable::Top;
    let mut head = None;
    let mut number: usize = 0;
    for line in text.lines() {
        number = number.saturating_add(1);
        let line = line.trim();
        if line.starts_with('[') {
            table = heads.table_at(line);
            if table == wanted {
                head = Some(number);
            }
        } else if table == wanted && is_of_key(line, key) {
            return Some(number);
        }
    }
    head
}

/// The names of the stages of a plant file, in order.
pub fn stage_names(alloc: Global, text: &str) -> Result<Vec<&str>, AllocError> {
    let mut names = Vec::new(alloc);
    let mut heads = Heads::default();
    let mut table = FileTable::Top;
    for line in text.lines() {
        let line = line.trim();
        if line.starts_with('[') {
            table = heads.table_at(line);
        } else if is_stage(table) && is_of_key(line, "name") {
            if let Some(name) = quoted(line) {
                names.push(name)?;
            }
        }
    }
    Ok(names)
}

/// Whether a table is that of a stage.
fn is_stage(table: FileTable) -> bool {
    match table {
        FileTable::Stage(_) => true,
        _ => false,
    }
}

/// What stands between the first two quotes of a line.
fn quoted(line: &str) -> Option<&str> {
    let (_, behind) = line.split_once('"')?;
    let (text, _) = behind.split_once('"')?;
    Some(text)
}

/// Whether a line gives this key its value.
fn is_of_key(line: &str, key: &str) -> bool {
    match line.strip_prefix(key) {
        Some(behind) => !key.is_empty() && behind.trim_start().starts_with('='),
        None => false,
    }
}

/// The table that a path leads to, and the key in it, which is empty where the path is that of the table.
pub fn table_of(path: &str) -> Option<(FileTable, &str)> {
    if let Some(rest) = path.strip_prefix("stage[") {
        let (stage, rest) = index_of(rest)?;
        return match rest.strip_prefix(".machine[") {
            Some(rest) => {
                let (machine, rest) = index_of(rest)?;
                Some((FileTable::Machine(stage, machine), key_of(rest)))
            }
            None => Some((FileTable::Stage(stage), key_of(rest))),
        };
    }
    match path.strip_prefix("loop[") {
        Some(rest) => {
            let (number, rest) = index_of(rest)?;
            Some((FileTable::Loop(number), key_of(rest)))
        }
        None => Some((FileTable::Top, key_of(path))),
    }
}

/// The number before a closing bracket, and what stands behind it.
fn index_of(text: &str) -> Option<(usize, &str)> {
    let (number, rest) = text.split_once(']')?;
    match number.parse::<usize>() {
        Ok(number) => Some((number, rest)),
        Err(_) => None,
    }
}

/// The key of a path in its table, without the dot before it and without the element of its list.
fn key_of(text: &str) -> &str {
    let key = match text.strip_prefix(".") {
        Some(key) => key,
        None => text,
    };
    match key.split_once('[') {
        Some((key, _)) => key,
        None => key,
    }
}
