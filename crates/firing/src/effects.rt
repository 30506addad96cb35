// The two effects: the moves of an event, and its findings.
ghost use Rattle.std.specs.Prelude.{◌≡◌, map};
ghost use Rattle.rules.specs.Kinds.{value_kind};
ghost use Rattle.rules.specs.Step.{entry_faults, entry_moves, lapse_faults, leaving, numbered_as};
ghost use Rattle.std.specs.Option.{option_to_list};
ghost use Rattle.firing.specs.At.{event_in, sheet_in};
ghost use Rattle.firing.specs.Effects.{fired_as};
ghost use Rattle.std.proofs.Common.{rules};

use crate::at::SheetEvent;
use crate::effect::Effect;
use items::Item;
use rules::{Cause, Fault, Finding, Move};
use sheets::{Entry, Row, state_of};
use values::Value;

// The moves of an event.
#[derive(Clone, Copy)]
pub struct Moves;

impl<V: Value> Effect<V, Move<V>> for Moves {
    ghost of_item = { λ _ s x fired. leaving (sheet_in s) x (fired_as fired) };

    ghost of_entry = { λ _ s x row n entry. entry_moves (value_kind V.Value) (sheet_in s) (event_in s) x row entry };

    ghost quiet = { Prim.search rules };

    fn of_item(&self, at: &SheetEvent<'_, '_, V>, item: &Item<V>, fired: bool) -> Option<Move<V>> {
        let state = state_of(at.states, item.name);
        let leaves = if fired {
            !state.always
        } else {
            state.step || state.next
        };
        let cause = if fired { Cause::Fired } else { Cause::Lapsed };
        leaves.then_some(Move { cause, item: *item })
    }

    fn of_entry(
        &self,
        at: &SheetEvent<'_, '_, V>,
        item: &Item<V>,
        row: &Row,
        number: u8,
        entry: Entry,
    ) -> Option<Move<V>> {
        match entry {
            Entry::Ok | Entry::Error => None,
            Entry::Ask(pattern) => Some(Move {
                cause: Cause::Asked,
                item: at.item_of(item, row, pattern),
            }),
            Entry::Strike(pattern) => Some(Move {
                cause: Cause::Struck,
                item: at.item_of(item, row, pattern),
            }),
        }
    }
}

// The findings of an event, with its number.
#[derive(Clone, Copy)]
pub struct Findings {
    pub event: u32,
}

impl<V: Value> Effect<V, Finding<V>> for Findings {
    ghost of_item = { λ f s x fired. map (numbered_as f.event) (lapse_faults (sheet_in s) x (fired_as fired)) };

    ghost of_entry = { λ f s x row n entry. map (numbered_as f.event) (entry_faults x n entry) };

    ghost quiet = { Prim.search rules };

    // A next item lapses where no row of it fires.
    fn of_item(
        &self,
        at: &SheetEvent<'_, '_, V>,
        item: &Item<V>,
        fired: bool,
    ) -> Option<Finding<V>> {
        if !fired && state_of(at.states, item.name).next {
            Some(Finding {
                event: self.event,
                fault: Fault::LapsedNext,
                item: *item,
            })
        } else {
            None
        }
    }

    fn of_entry(
        &self,
        at: &SheetEvent<'_, '_, V>,
        item: &Item<V>,
        row: &Row,
        number: u8,
        entry: Entry,
    ) -> Option<Finding<V>> {
        match entry {
            Entry::Error => Some(Finding {
                event: self.event,
                fault: Fault::Error { row: number },
                item: *item,
            }),
            Entry::Ok | Entry::Ask(_) | Entry::Strike(_) => None,
        }
    }
}
