// Which items of a state an event can touch.
ghost use Rattle.std.specs.Prelude.{◌≡◌, ◌<◌, true, List, IfSome, IfOk};
ghost use Rattle.items.specs.declared.item.Item.{Item};
ghost use Rattle.rules.specs.Kinds.{value_kind};
ghost use Rattle.sheets.specs.declared.tables.Row.{Row};
ghost use Rattle.std.specs.List.{AllByRecursion};
ghost use Rattle.std.specs.Option.{unwrap_or};
ghost use Rattle.step.specs.Scopes.{Keys, Quiet, own_field, own_first, skipped};

use crate::scope::Scope;
use firing::{SheetEvent, state_of};
use sheets::{Cell, Row, Want};
use values::Value;

// Some rows of a state and an event kind do not want own parameter 1 in the same field.
#[derive(Clone, Copy)]
struct Differing;

// Whether a cell wants own parameter 1.
fn wants_own(cell: &Cell) -> bool
    ensures { result ≡ own_first cell.now.want }
{
    cell.want == Want::Own(1)
}

// The field, from 1 on, of the first cell that wants own parameter 1.
fn own_field(cells: &[Option<Cell>]) -> Option<u8>
    ensures field { unwrap_or result 0 ≡ own_field cells.now }
    ensures from_one { IfSome result (λ f. 0 < f) }
{
    cells
        .iter()
        .flatten()
        .find(|cell| wants_own(cell))
        .map(|cell| cell.field)
        .filter(|field| *field > 0)
}

// The field in which the rows so far and one more want own parameter 1; none while there is no such row.
fn agreed_field(field: Option<u8>, row: &Row, name: u8, kind: u8) -> Result<Option<u8>, Differing>
    ensures { IfOk result (λ o. Keys name kind (unwrap_or o 0) row.now × ((other : Row) → Keys name kind (unwrap_or field 0) other → Keys name kind (unwrap_or o 0) other)) }
{
    if row.source != name || row.kind != kind {
        return Ok(field);
    }
    let own = own_field(&row.cells).ok_or(Differing)?;
    match field {
        Some(other) if other != own => Err(Differing),
        _ => Ok(Some(own)),
    }
}

// The field in which all rows of a state and an event kind want own parameter 1; none where there is no such row.
fn common_field(rows: &[Row], name: u8, kind: u8) -> Result<Option<u8>, Differing>
    ensures { IfOk result (λ o. AllByRecursion (Keys name kind (unwrap_or o 0)) rows.now) }
{
    let mut field = None;
    for row in rows {
        field = agreed_field(field, row, name, kind)?;
    }
    Ok(field)
}

// Which items of a state the event can touch: what is left out has no fired row and does not lapse.
pub fn scope_of<V: Value>(at: &SheetEvent<'_, '_, V>, name: u8) -> Scope<V>
    ensures { (F : List (Item V)) (x : Item V) → x.name ≡ name → skipped V.Ord.cmp result x ≡ true → Quiet (value_kind V.Value) at.now F x }
{
    let state = state_of(at.states, name);
    if state.step || state.next {
        return Scope::Every;
    }
    match common_field(at.rows, name, at.event.kind) {
        Ok(Some(field)) => match at.event.field(field) {
            Some(value) => Scope::Only(value),
            None => Scope::Nothing,
        },
        Ok(None) => Scope::Nothing,
        Err(Differing) => Scope::Every,
    }
}
