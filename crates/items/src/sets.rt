// What the words of a shelf's contracts mean for sets.
ghost use Rattle.items.specs.Items.{item_order};
ghost use Rattle.items.specs.Sets.{SetMeaning};

use values::Value;

// Tells the caller which items are held once one is put in or taken out, and that what `next` finds is the least.
pub fn know_sets<V: Value>()
    ensures { SetMeaning (item_order V.Ord.cmp) }
{}
