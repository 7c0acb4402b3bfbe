// The tables of a cluster text, and the lines in which they stand.
use crate::keys::Section;
use std::alloc::{AllocError, Global};
use toml::Table;

// A table of the text: the one of this number, from 0, among those of its kind.
#[derive(Clone, Copy)]
pub(crate) struct Spot<'a> {
    pub(crate) section: Section,
    pub(crate) index: usize,
    pub(crate) table: &'a Table,
}

// The tables of a list at a key come behind those that are there.
fn add_spots<'a>(
    spots: &mut Vec<Spot<'a>>,
    top: &'a Table,
    key: &str,
    section: Section,
) -> Result<(), AllocError> {
    let Some(list) = top.get(key) else {
        return Ok(());
    };
    let Some(values) = list.as_array() else {
        return Ok(());
    };
    for (index, value) in values.as_slice().iter().enumerate() {
        if let Some(table) = value.as_table() {
            spots.push(Spot {
                section,
                index,
                table,
            })?;
        }
    }
    Ok(())
}

// All tables of a text.
pub(crate) fn spots_in<'a>(alloc: Global, top: &'a Table) -> Result<Vec<Spot<'a>>, AllocError> {
    let mut spots = Vec::new(alloc);
    spots.push(Spot {
        section: Section::Top,
        index: 0,
        table: top,
    })?;
    add_spots(&mut spots, top, "drive", Section::Drive)?;
    add_spots(&mut spots, top, "file", Section::File)?;
    Ok(spots)
}

// Where one is while the lines of a text are read.
#[derive(Clone, Copy)]
struct Place {
    section: Option<Section>,
    drives: usize,
    files: usize,
}

impl Place {
    // Whether the lines are those of the table.
    fn is_in(&self, section: Section, index: usize) -> bool {
        let before = match section {
            Section::Top => 0,
            Section::Drive => self.drives.saturating_sub(1),
            Section::File => self.files.saturating_sub(1),
        };
        self.section == Some(section) && before == index
    }

    // Behind a line that begins a table.
    fn behind(self, name: &str) -> Place {
        match name {
            "drive" => Place {
                section: Some(Section::Drive),
                drives: self.drives.saturating_add(1),
                ..self
            },
            "file" => Place {
                section: Some(Section::File),
                files: self.files.saturating_add(1),
                ..self
            },
            _ => Place {
                section: None,
                ..self
            },
        }
    }
}

// The name of the table that a line begins.
fn header(line: &str) -> Option<&str> {
    let (_, name) = line.split_once('[')?;
    if !line.starts_with('[') {
        return None;
    }
    let name = name.trim_matches('[');
    match name.split_once(']') {
        Some((name, _)) => Some(name.trim()),
        None => Some(name.trim()),
    }
}

// Whether a line gives the key its value.
fn gives(line: &str, key: &str) -> bool {
    match line.split_once('=') {
        Some((name, _)) => name.trim().trim_matches('"') == key,
        None => false,
    }
}

// The line, from 1, in which a table has its key, or without a key the one that begins the table. A text that
// is written in another way than a key a line may have none.
pub(crate) fn line_in(
    text: &str,
    section: Section,
    index: usize,
    key: Option<&str>,
) -> Option<usize> {
    let mut place = Place {
        section: Some(Section::Top),
        drives: 0,
        files: 0,
    };
    let mut number = 0usize;
    for line in text.lines() {
        let line = line.trim();
        number = number.saturating_add(1);
        let begins = header(line);
        if let Some(name) = begins {
            place = place.behind(name);
        }
        if !place.is_in(section, index) {
            continue;
        }
        let found = match key {
            Some(key) => gives(line, key),
            None => begins.is_some(),
        };
        if found {
            return Some(number);
        }
    }
    None
}
