// Walks along linked cells, and the links before and after a cell is put in or taken out.
ghost use Rattle.std.specs.Prelude.{◌≡◌, ◌<◌, map, length, vec_len};
ghost use Rattle.items.specs.Ascending.{first_of};
ghost use Rattle.items.specs.Items.{wanted};
ghost use Rattle.indexed.specs.Links.{reached, last_of, front, linked, unlinked};
ghost use Rattle.indexed.specs.Index.{item_in, probe, Walkable};

use items::Item;
use std::cmp::Ordering;
use values::Value;

// The last cell, from the start on, that holds less than the item; the start where none does.
pub fn last_before<V: Value>(
    cells: &[Item<V>],
    links: &[u32],
    limit: usize,
    start: usize,
    item: &Item<V>,
) -> usize
    requires { Walkable (length cells.now) links.now limit start }
    ensures { result ≡ last_of start (front (probe V.Ord.cmp V.Value.blank cells.now item.now) (reached links.now limit start limit)) }
{
    let mut last = start;
    while (links[last] as usize) < limit {
        let cell = links[last] as usize;
        match cells[cell].compare(item) {
            Ordering::Less => last = cell,
            _ => return last,
        }
    }
    last
}

// The first wanted item from the start on.
pub fn first_wanted<V: Value>(
    cells: &[Item<V>],
    links: &[u32],
    limit: usize,
    start: usize,
    name: u8,
    first: Option<V>,
    above: Option<Item<V>>,
) -> Option<Item<V>>
    requires { Walkable (length cells.now) links.now limit start }
    ensures { result ≡ first_of (wanted V.Ord.cmp name first above) (map (item_in V.Value.blank cells.now) (reached links.now limit start limit)) }
{
    let mut last = start;
    while (links[last] as usize) < limit {
        last = links[last] as usize;
        if cells[last].is_wanted(name, first, above) {
            return Some(cells[last]);
        }
    }
    None
}

// Puts a cell in after another.
pub fn link(links: &mut Vec<u32>, after: usize, cell: u32)
    requires { (after < vec_len links.old) × (cell < vec_len links.old) }
    ensures { links.new.items ≡ linked links.old.items after cell }
{
    links[cell as usize] = links[after];
    links[after] = cell;
}

// Takes a cell out after another.
pub fn unlink(links: &mut Vec<u32>, after: usize, cell: u32)
    requires { (after < vec_len links.old) × (cell < vec_len links.old) }
    ensures { links.new.items ≡ unlinked links.old.items after cell }
{
    links[after] = links[cell as usize];
}
