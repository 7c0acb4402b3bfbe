// The keys and the types of a cluster text.
ghost use Rattle.std.specs.Prelude.{◌≡◌, map};
ghost use Rattle.std.specs.List.{list_any};
ghost use Rattle.toml.specs.View.{table_view};
ghost use Rattle.cluster_text.specs.Shape.{holds_no_integer, holds_no_list, holds_no_text, is_key, has_other_key};
ghost use Rattle.cluster_text.specs.Shape.{lacks_file_key, lacks_drive_key, is_drive, lacks_drive, has_unknown};
ghost use Rattle.cluster_text.specs.Shape.{lacks, is_wrong_drive, is_wrong_file, is_wrong};

use crate::cluster::Reader;
use crate::tables::{are_tables, has, integer_at, text_at, value_at};
use toml::Table;

// The kinds of tables in a cluster text.
#[derive(Clone, Copy)]
enum Section {
    Top,
    Drive,
    File,
}

// Whether a table of the kind may have the key.
#[tactic(auto, unfolding(crate::specs::Shape::is_key))]
fn is_key(section: Section, key: &str) -> bool
    ensures { result ≡ is_key section key.now }
{
    match section {
        Section::Top => matches!(key, "server" | "format" | "drive" | "file"),
        Section::Drive => matches!(key, "number" | "address" | "key" | "capacity"),
        Section::File => matches!(
            key,
            "number" | "components" | "unit" | "width" | "depth" | "mirrors" | "algorithm"
        ),
    }
}

fn has_other_key(section: Section, table: &Table) -> bool
    ensures { result ≡ has_other_key section (table_view table.now) }
{
    table.keys().any(|key| !is_key(section, key.as_str()))
}

fn any_has_other_key(section: Section, tables: &[&Table]) -> bool
    ensures { result ≡ list_any (has_other_key section) (map (λ t. table_view t.now) tables.now) }
{
    tables.iter().any(|table| has_other_key(section, table))
}

// Whether a table has a key that isn't one of its own, anywhere in the text.
#[tactic(auto, unfolding(crate::specs::Shape::has_unknown))]
pub(crate) fn has_unknown(top: &Table, drives: &[&Table], files: &[&Table]) -> bool
    ensures { result ≡ has_unknown (table_view top.now) (map (λ t. table_view t.now) drives.now)
        (map (λ t. table_view t.now) files.now) }
{
    has_other_key(Section::Top, top)
        || any_has_other_key(Section::Drive, drives)
        || any_has_other_key(Section::File, files)
}

// ---- keys that are missing

fn lacks_drive_key(needs_key: bool, table: &Table) -> bool
    ensures { result ≡ lacks_drive_key needs_key (table_view table.now) }
{
    !has(table, "number")
        || !has(table, "address")
        || !has(table, "capacity")
        || needs_key && !has(table, "key")
}

fn any_lacks_drive_key(needs_key: bool, tables: &[&Table]) -> bool
    ensures { result ≡ list_any (lacks_drive_key needs_key) (map (λ t. table_view t.now) tables.now) }
{
    tables.iter().any(|table| lacks_drive_key(needs_key, table))
}

fn lacks_file_key(table: &Table) -> bool
    ensures { result ≡ lacks_file_key (table_view table.now) }
{
    !has(table, "number")
        || !has(table, "components")
        || !has(table, "unit")
        || !has(table, "width")
        || !has(table, "depth")
        || !has(table, "mirrors")
        || !has(table, "algorithm")
}

fn any_lacks_file_key(tables: &[&Table]) -> bool
    ensures { result ≡ list_any lacks_file_key (map (λ t. table_view t.now) tables.now) }
{
    tables.iter().any(|table| lacks_file_key(table))
}

fn is_drive(number: u32, table: &Table) -> bool
    ensures { result ≡ is_drive number (table_view table.now) }
{
    match integer_at(table, "number") {
        Some(other) => other == i64::from(number),
        None => false,
    }
}

fn any_is_drive(number: u32, tables: &[&Table]) -> bool
    ensures { result ≡ list_any (is_drive number) (map (λ t. table_view t.now) tables.now) }
{
    tables.iter().any(|table| is_drive(number, table))
}

// Whether the drive that reads the text isn't in it.
fn lacks_drive(reader: Reader, drives: &[&Table]) -> bool
    ensures { result ≡ lacks_drive reader (map (λ t. table_view t.now) drives.now) }
{
    match reader {
        Reader::Drive(number) => !any_is_drive(number, drives),
        Reader::Server | Reader::Client => false,
    }
}

// Whether a key is missing anywhere in the text, or the drive that reads it.
#[tactic(auto, unfolding(crate::specs::Shape::lacks))]
pub(crate) fn lacks(reader: Reader, top: &Table, drives: &[&Table], files: &[&Table]) -> bool
    ensures { result ≡ lacks reader (table_view top.now) (map (λ t. table_view t.now) drives.now)
        (map (λ t. table_view t.now) files.now) }
{
    let needs_key = !matches!(reader, Reader::Client);
    !has(top, "server")
        || !has(top, "drive")
        || any_lacks_drive_key(needs_key, drives)
        || any_lacks_file_key(files)
        || lacks_drive(reader, drives)
}

// ---- values of another type

fn holds_no_text(table: &Table, key: &str) -> bool
    ensures { result ≡ holds_no_text key.now (table_view table.now) }
{
    has(table, key) && text_at(table, key).is_none()
}

fn holds_no_integer(table: &Table, key: &str) -> bool
    ensures { result ≡ holds_no_integer key.now (table_view table.now) }
{
    has(table, key) && integer_at(table, key).is_none()
}

// Whether the key's value isn't a list of tables.
fn holds_no_list(table: &Table, key: &str) -> bool
    ensures { result ≡ holds_no_list key.now (table_view table.now) }
{
    match value_at(table, key) {
        Some(value) => match value.as_array() {
            Some(values) => !are_tables(values.as_slice()),
            None => true,
        },
        None => false,
    }
}

fn is_wrong_drive(table: &Table) -> bool
    ensures { result ≡ is_wrong_drive (table_view table.now) }
{
    holds_no_integer(table, "number")
        || holds_no_text(table, "address")
        || holds_no_text(table, "key")
        || holds_no_integer(table, "capacity")
}

fn any_is_wrong_drive(tables: &[&Table]) -> bool
    ensures { result ≡ list_any is_wrong_drive (map (λ t. table_view t.now) tables.now) }
{
    tables.iter().any(|table| is_wrong_drive(table))
}

fn is_wrong_file(table: &Table) -> bool
    ensures { result ≡ is_wrong_file (table_view table.now) }
{
    holds_no_integer(table, "number")
        || holds_no_integer(table, "components")
        || holds_no_integer(table, "unit")
        || holds_no_integer(table, "width")
        || holds_no_integer(table, "depth")
        || holds_no_integer(table, "mirrors")
        || holds_no_integer(table, "algorithm")
}

fn any_is_wrong_file(tables: &[&Table]) -> bool
    ensures { result ≡ list_any is_wrong_file (map (λ t. table_view t.now) tables.now) }
{
    tables.iter().any(|table| is_wrong_file(table))
}

// Whether a value is of another type than its key asks for, anywhere in the text.
#[tactic(auto, unfolding(crate::specs::Shape::is_wrong))]
pub(crate) fn is_wrong(top: &Table, drives: &[&Table], files: &[&Table]) -> bool
    ensures { result ≡ is_wrong (table_view top.now) (map (λ t. table_view t.now) drives.now)
        (map (λ t. table_view t.now) files.now) }
{
    holds_no_text(top, "server")
        || holds_no_integer(top, "format")
        || holds_no_list(top, "drive")
        || holds_no_list(top, "file")
        || any_is_wrong_drive(drives)
        || any_is_wrong_file(files)
}
