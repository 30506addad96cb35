// New buffers, every place of which is untouched.
ghost use Rattle.std.specs.Prelude.{◌≡◌, IfOk, replicate};
ghost use Rattle.answers.specs.Shown.{untouched_finding, untouched_item, untouched_move};

use answers::untouched;
use items::Item;
use rules::{Cause, Fault, Finding, Move};
use scripts::ScriptValue;
use std::alloc::{AllocError, Global};
use values::Value;

// As many places with the same in each.
fn filled<T: Copy>(heap: Global, x: T, places: usize) -> Result<Vec<T>, AllocError>
    ensures { IfOk result (λ v. v.items ≡ replicate places x) }
{
    let mut all = Vec::with_capacity(heap, places)?;
    for _done in 0..places {
        all.push(x)?;
    }
    Ok(all)
}

// As many places for items.
pub fn item_room<V: ScriptValue>(heap: Global, places: usize) -> Result<Vec<Item<V>>, AllocError>
    ensures { IfOk result (λ v. v.items ≡ replicate places (untouched_item V.Value.blank)) }
{
    filled(heap, untouched(), places)
}

// As many places for moves.
pub fn move_room<V: ScriptValue>(heap: Global, places: usize) -> Result<Vec<Move<V>>, AllocError>
    ensures { IfOk result (λ v. v.items ≡ replicate places (untouched_move V.Value.blank)) }
{
    let blank = Move {
        cause: Cause::Fired,
        item: untouched(),
    };
    filled(heap, blank, places)
}

// As many places for findings.
pub fn finding_room<V: ScriptValue>(
    heap: Global,
    places: usize,
) -> Result<Vec<Finding<V>>, AllocError>
    ensures { IfOk result (λ v. v.items ≡ replicate places (untouched_finding V.Value.blank)) }
{
    let blank = Finding {
        event: 0,
        fault: Fault::HotAtClose,
        item: untouched(),
    };
    filled(heap, blank, places)
}
