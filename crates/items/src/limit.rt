// The limit of a shelf.
ghost use Rattle.std.specs.Prelude.{◌≡◌};
ghost use Rattle.items.specs.Items.{limit_of};

// The most items that any shelf may hold.
const MOST: usize = 65536;

// The limit of a shelf that is given as many cells.
pub fn limit_of(cells: usize) -> usize
    ensures { result ≡ limit_of cells }
{
    cells.min(MOST)
}
