//! Tables of texts and of what is reported about them: in each row a text, ` ~ `, and what is
//! reported. An empty row, or one that begins with `//`, says nothing.
use super::body_text::{Asked, compare_lines};
use super::pieces::write_piece;
use std::alloc::Global;
use std::process::Abort;

/// What comes before something, and what comes after it.
pub type Around<'a> = (&'a str, &'a str);

/// What is asked of the texts of a table, what surrounds its texts, what surrounds the expected
/// reports of its rows, and its rows.
pub type Table<'a> = (Asked, Around<'a>, Around<'a>, &'a str);

// Something and what surrounds it.
fn joined(rt: &impl Abort, alloc: Global, (front, back): Around<'_>, middle: &str) -> String {
    let mut out = String::new(alloc);
    write_piece(rt, &mut out, front);
    write_piece(rt, &mut out, middle);
    write_piece(rt, &mut out, back);
    out
}

// Ends the test unless the report about the row's text is as the row says.
fn compare_row(rt: &impl Abort, alloc: Global, (asked, texts, told, _): Table<'_>, row: &str) {
    let (text, want) = row.split_once(" ~ ").unwrap_or((row, "a row"));
    let lines = joined(rt, alloc, texts, text);
    let want = joined(rt, alloc, told, want);
    compare_lines(rt, alloc, asked, lines.as_str(), want.as_str());
}

// Like `compare_row`, for each row of a table.
fn compare_rows(rt: &impl Abort, alloc: Global, table: Table<'_>) {
    for row in table.3.split('\n') {
        if !row.is_empty() && !row.starts_with("//") {
            compare_row(rt, alloc, table, row);
        }
    }
}

/// Ends the test unless the report about each text of each table is as its row says.
pub fn compare_tables(rt: &impl Abort, alloc: Global, tables: &[Table<'_>]) {
    for table in tables {
        compare_rows(rt, alloc, *table);
    }
}
