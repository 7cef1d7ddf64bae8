use super::names::Names;
use super::numbers::range;
use anyhow::{Result, bail};
use std::alloc::Global;

/// So many letters of a value are told.
const MOST_TOLD: usize = 40;

/// A row of a table. Its first value is this number, where the row is one of a range.
#[derive(Clone, Copy)]
struct Row<'a> {
    text: &'a str,
    place: Option<u64>,
}

/// The columns' names, and the rows.
#[derive(Drop)]
struct Table<'a> {
    columns: &'a str,
    rows: Vec<Row<'a>>,
}

/// A case: its title, its tables and its other lines. It is played for each combination of rows.
#[derive(Drop)]
pub struct Case<'a> {
    pub title: &'a str,
    tables: Vec<Table<'a>>,
    pub body: Vec<&'a str>,
}

impl<'a> Case<'a> {
    /// The case that these lines are.
    pub fn read(alloc: Global, lines: &[&'a str]) -> Result<Case<'a>> {
        let mut case = Case {
            title: "",
            tables: Vec::new(alloc),
            body: Vec::new(alloc),
        };
        let mut table = None;
        for line in lines {
            if let Some(open) = table.take() {
                table = case.take_row(open, line)?;
            } else if let Some(columns) = line.strip_prefix("each ") {
                let rows = Vec::new(alloc);
                table = Some(Table { columns, rows });
            } else if let Some(title) = line.strip_prefix("case ") {
                case.title = title;
            } else {
                case.body.push(*line)?;
            }
        }
        if let Some(table) = table {
            let columns = table.columns;
            bail!("table {columns} has no end");
        }
        Ok(case)
    }

    // A line of a table: a row, rows for a range, or its end.
    fn take_row(&mut self, table: Table<'a>, line: &'a str) -> Result<Option<Table<'a>>> {
        let mut table = table;
        let columns = table.columns;
        if line == "end" {
            if table.rows.is_empty() {
                bail!("table {columns} has no rows");
            }
            self.tables.push(table)?;
            return Ok(None);
        }
        if line.split('|').count() != columns.split('|').count() {
            bail!("table {columns} has a row of another number of values: {line}");
        }
        let first = line.split_once('|').map_or(line, |(first, _)| first);
        match range(first) {
            None => table.rows.push(Row {
                text: line,
                place: None,
            })?,
            Some((low, high)) => {
                for place in low..high.saturating_add(1) {
                    table.rows.push(Row {
                        text: line,
                        place: Some(place),
                    })?;
                }
            }
        }
        Ok(Some(table))
    }

    /// How many combinations of rows there are.
    pub fn count(&self) -> u64 {
        let mut count = 1u64;
        for table in self.tables.iter() {
            count = count.saturating_mul(table.rows.len() as u64);
        }
        count
    }

    /// Binds the columns' names to the values of a combination, and tells these as a text.
    pub fn bind(&self, alloc: Global, number: u64, names: &mut Names) -> Result<String> {
        let mut told = String::new(alloc);
        let mut rest = number;
        for table in self.tables.iter() {
            let rows = table.rows.len() as u64;
            if rows == 0 {
                continue;
            }
            let place = (rest % rows) as usize;
            rest /= rows;
            if let Some(row) = table.rows.get(place) {
                bind_row(alloc, table.columns, *row, names, &mut told)?;
            }
        }
        Ok(told)
    }
}

fn bind_row(
    alloc: Global,
    columns: &str,
    row: Row<'_>,
    names: &mut Names,
    told: &mut String,
) -> Result<()> {
    for (at, (column, value)) in columns.split('|').zip(row.text.split('|')).enumerate() {
        let value = match row.place {
            Some(place) if at == 0 => format!(in alloc; "{place}")?,
            _ => names.expand(value.trim())?,
        };
        names.bind(column.trim(), value.as_str())?;
        told.push_str(" | ")?;
        for letter in value.as_str().chars().take(MOST_TOLD) {
            told.push(letter)?;
        }
    }
    Ok(())
}
