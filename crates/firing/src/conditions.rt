// Whether a row fires: its conditions are read on the items of a shelf.
ghost use Rattle.std.specs.Prelude.{◌≡◌, ◌&&◌, ◌==◌};
ghost use Rattle.rules.specs.Kinds.{value_kind};
ghost use Rattle.rules.specs.Step.{condition_holds, is_of, row_fires};
ghost use Rattle.sheets.specs.Words.{every, present, some};
ghost use Rattle.firing.specs.At.{event_in, sheet_in};

use crate::at::SheetEvent;
use items::{Item, Shelf};
use sheets::{Condition, Pattern, Row};
use values::Value;

impl<'a, 'b, V: Value> SheetEvent<'a, 'b, V> {
    // Whether the shelf holds an item of the pattern: only those with the first argument's value are looked at, where it has one.
    fn exists<S: Shelf<Of = V>>(
        &self,
        shelf: &S,
        item: &Item<V>,
        row: &Row,
        pattern: Pattern,
    ) -> bool
        ensures { result ≡ some (is_of (value_kind V.Value) (sheet_in self.now) (event_in self.now) item.now row.now pattern) (S.Shelf.items shelf.now) }
    {
        let first = self.first_value(item, row, pattern.arguments);
        let mut above = None;
        while let Some(other) = shelf.next(pattern.state, first, above) {
            if self.is_of(item, row, pattern, &other) {
                return true;
            }
            above = Some(other);
        }
        false
    }

    // Whether the condition is met: an item of its pattern is on the shelf or, negated, none is.
    fn condition_holds<S: Shelf<Of = V>>(
        &self,
        shelf: &S,
        item: &Item<V>,
        row: &Row,
        condition: &Condition,
    ) -> bool
        ensures { result ≡ condition_holds (value_kind V.Value) (sheet_in self.now) (event_in self.now) item.now row.now (S.Shelf.items shelf.now) condition.now }
    {
        condition.negated != self.exists(shelf, item, row, condition.pattern)
    }

    // Whether every condition of the row is met.
    fn conditions_hold<S: Shelf<Of = V>>(&self, shelf: &S, item: &Item<V>, row: &Row) -> bool
        ensures { result ≡ every (condition_holds (value_kind V.Value) (sheet_in self.now) (event_in self.now) item.now row.now (S.Shelf.items shelf.now)) (present row.now.conditions) }
    {
        row.conditions.iter().flatten().all(|condition| self.condition_holds(
            shelf, item, row, condition,
        ))
    }

    // Whether the row is one of the item's state and the event's kind.
    fn row_applies(&self, item: &Item<V>, row: &Row) -> bool
        ensures { result ≡ (row.now.source == item.now.name && row.now.kind == (event_in self.now).kind) }
    {
        row.source == item.name && row.kind == self.event.kind
    }

    // Whether the row fires for the item, with the shelf's items as the set before the event.
    pub fn row_fires<S: Shelf<Of = V>>(&self, shelf: &S, item: &Item<V>, row: &Row) -> bool
        ensures { result ≡ row_fires (value_kind V.Value) (sheet_in self.now) (event_in self.now) item.now row.now (S.Shelf.items shelf.now) }
    {
        self.row_applies(item, row)
            && self.cells_hold(item, row)
            && self.conditions_hold(shelf, item, row)
    }
}
