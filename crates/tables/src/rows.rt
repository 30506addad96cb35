// Rows, built part by part.
ghost use Rattle.std.specs.Prelude.{◌≡◌};
ghost use Rattle.tables.specs.Building.{bare_row, row_with};

use crate::places::place;
use scripts::Misfit;
use sheets::Row;
use tablelines::RowLine;

// A row with nothing but its source and its kind.
pub fn bare_row(source: u8, kind: u8) -> Row
    ensures { result ≡ bare_row source kind }
{
    Row {
        source,
        kind,
        cells: [None; 4],
        conditions: [None; 2],
        entries: [None; 4],
    }
}

// The row with one more part.
pub fn row_with(mut row: Row, line: RowLine) -> Result<Row, Misfit>
    ensures { result ≡ row_with row line }
{
    match line {
        RowLine::Cell(cell) => place(&mut row.cells, cell)?,
        RowLine::Condition(condition) => place(&mut row.conditions, condition)?,
        RowLine::Entry(entry) => place(&mut row.entries, entry)?,
    }
    Ok(row)
}
