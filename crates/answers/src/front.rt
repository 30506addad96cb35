// The front of a buffer.
ghost use Rattle.std.specs.Prelude.{◌≡◌, take};

// As many places from the front as were told, or all of them where that is more.
pub fn front<X>(places: &[X], count: usize) -> &[X]
    ensures { result.now ≡ take count places.now }
{
    places.get(0..count).unwrap_or(places)
}
