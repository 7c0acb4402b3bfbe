// Tables of a TOML document, and what stands in them.
ghost use Rattle.std.specs.Prelude.{◌≡◌, ◌⊎◌, map, option_map, IfOk};
ghost use Rattle.toml.specs.Data.{get_member};
ghost use Rattle.toml.specs.View.{view, table_view};
ghost use Rattle.cluster_text.specs.Tables.{has, integer_at, tables_at, tables_in, text_at, are_tables};

use osd_lists::Memory;
use std::alloc::Global;
use toml::{Table, Value};

// The value at a key.
pub(crate) fn value_at<'a>(table: &'a Table, key: &str) -> Option<&'a Value>
    ensures { option_map (λ v. view v.now) result ≡ get_member key.now (table_view table.now) }
{
    table.get(key)
}

// Whether a table has a key.
pub(crate) fn has(table: &Table, key: &str) -> bool
    ensures { result ≡ has key.now (table_view table.now) }
{
    value_at(table, key).is_some()
}

// The value at a key, if it is a text.
pub(crate) fn text_at<'a>(table: &'a Table, key: &str) -> Option<&'a str>
    ensures { option_map (λ s. s.now) result ≡ text_at key.now (table_view table.now) }
{
    match value_at(table, key) {
        Some(value) => value.as_str(),
        None => None,
    }
}

// The value at a key, if it is an integer.
pub(crate) fn integer_at(table: &Table, key: &str) -> Option<i64>
    ensures { result ≡ integer_at key.now (table_view table.now) }
{
    match value_at(table, key) {
        Some(value) => value.as_integer(),
        None => None,
    }
}

// Whether all values of a list are tables.
pub(crate) fn are_tables(values: &[Value]) -> bool
    ensures { result ≡ are_tables (map view values.now) }
{
    values.iter().all(|value| value.as_table().is_some())
}

// The tables of a list.
fn tables_in(alloc: Global, values: &[Value]) -> Result<Vec<&Table>, Memory>
    ensures { IfOk result (λ tables. map (λ t. table_view t.now) tables.items ≡ tables_in (map view values.now)) }
{
    let mut tables = Vec::new(alloc);
    for value in values {
        if let Some(table) = value.as_table() {
            tables.push(table)?;
        }
    }
    Ok(tables)
}

// The tables of the list at a key.
pub(crate) fn tables_at<'a>(
    alloc: Global,
    table: &'a Table,
    key: &str,
) -> Result<Vec<&'a Table>, Memory>
    ensures { IfOk result (λ tables. map (λ t. table_view t.now) tables.items ≡ tables_at key.now (table_view table.now)) }
{
    match value_at(table, key) {
        Some(value) => match value.as_array() {
            Some(values) => tables_in(alloc, values.as_slice()),
            None => Ok(Vec::new(alloc)),
        },
        None => Ok(Vec::new(alloc)),
    }
}
