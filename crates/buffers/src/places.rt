// A lent buffer that is filled from a place on.
ghost use Rattle.std.specs.Prelude.{◌≡◌, slice_set};
ghost use Rattle.std.specs.Option.{option_to_list};
ghost use Rattle.buffers.specs.Places.{fill, place_after, places_after};

// The place after a place; the largest number stays.
pub fn place_after(place: u128) -> u128
    ensures { result ≡ place_after place }
{
    if place < u128::MAX { place + 1 } else { place }
}

// Puts an element at a place of the buffer, if it has that place.
fn set_at<X: Copy>(buffer: &mut [X], place: u128, x: X)
    ensures { buffer.new ≡ slice_set buffer.old place x }
{
    if place < buffer.len() as u128 {
        buffer[place as usize] = x;
    }
}

// Puts an element at a place of the buffer, if it has that place, and answers the place after it.
pub fn put<X: Copy>(buffer: &mut [X], place: u128, x: X) -> u128
    ensures buffer { buffer.new ≡ slice_set buffer.old place x }
    ensures place { result ≡ place_after place }
{
    set_at(buffer, place, x);
    place_after(place)
}

// Puts an element in, where there is one.
pub fn put_if<X: Copy>(buffer: &mut [X], place: u128, x: Option<X>) -> u128
    ensures buffer { buffer.new ≡ fill buffer.old place (option_to_list x) }
    ensures place { result ≡ places_after place (option_to_list x) }
{
    match x {
        Some(x) => put(buffer, place, x),
        None => place,
    }
}
