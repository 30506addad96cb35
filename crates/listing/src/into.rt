// Listing the items of a shelf into a lent buffer, name after name.
ghost use Rattle.std.specs.Prelude.{◌≡◌, map, length};
ghost use Rattle.buffers.specs.Places.{capped, fill, places_after};
ghost use Rattle.items.specs.Ascending.{kept};
ghost use Rattle.items.specs.Items.{named};
ghost use Rattle.listing.specs.Listed.{listed_named, listed_of};

use crate::listing::Listing;
use buffers::put;
use items::Shelf;
use values::Value;

// Puts in what is shown of the items of a name, in their order, and answers the place after.
fn named_into<V: Value, X: Copy, L: Listing<V, X>, S: Shelf<Of = V>>(
    listing: &L,
    shelf: &S,
    name: u8,
    out: &mut [X],
    place: u128,
) -> u128
    ensures out { out.new ≡ fill out.old place (map (L.Listing.shows listing.now) (kept (named name) (S.Shelf.items shelf.now))) }
    ensures place { result ≡ places_after place (map (L.Listing.shows listing.now) (kept (named name) (S.Shelf.items shelf.now))) }
{
    let mut after = place;
    let mut above = None;
    while let Some(item) = shelf.next(name, None, above) {
        after = put(out, after, listing.show(&item));
        above = Some(item);
    }
    after
}

// The same, unless the name is left out.
fn taken_into<V: Value, X: Copy, L: Listing<V, X>, S: Shelf<Of = V>>(
    listing: &L,
    shelf: &S,
    name: u8,
    out: &mut [X],
    place: u128,
) -> u128
    ensures out { out.new ≡ fill out.old place (listed_named (L.Listing.takes listing.now) (L.Listing.shows listing.now) name (S.Shelf.items shelf.now)) }
    ensures place { result ≡ places_after place (listed_named (L.Listing.takes listing.now) (L.Listing.shows listing.now) name (S.Shelf.items shelf.now)) }
{
    if listing.takes(name) {
        named_into(listing, shelf, name, out, place)
    } else {
        place
    }
}

// Fills the front of a lent buffer with what is listed, in the order of the items, as far as it reaches; answers how many there are, counted up to the largest that a u128 has.
pub fn listed_into<V: Value, X: Copy, L: Listing<V, X>, S: Shelf<Of = V>>(
    listing: &L,
    shelf: &S,
    out: &mut [X],
) -> u128
    ensures out { out.new ≡ fill out.old 0 (listed_of (L.Listing.takes listing.now) (L.Listing.shows listing.now) (S.Shelf.items shelf.now)) }
    ensures count { result ≡ capped (length (listed_of (L.Listing.takes listing.now) (L.Listing.shows listing.now) (S.Shelf.items shelf.now))) }
{
    let mut after = 0;
    for name in 0..=u8::MAX {
        after = taken_into(listing, shelf, name, out, after);
    }
    after
}
