// The places of a row, filled from the front.
ghost use Rattle.std.specs.Prelude.{◌≡◌, ◌<◌, ◌≤◌, not, length, position, is_some, is_ok, IfSome, if◌then◌else◌};
ghost use Rattle.tables.specs.Building.{first_free, fits, placed};

use scripts::Misfit;

// The first place that is free.
fn free_place<T: Copy>(places: &[Option<T>]) -> Option<usize>
    ensures value { result ≡ position (λ o. not (is_some o)) places.now }
    ensures within { IfSome result (λ i. i < length places.now) }
{
    places.iter().position(|place| place.is_none())
}

// How many places stand before the first that is free.
fn first_free<T: Copy>(places: &[Option<T>]) -> usize
    ensures value { result ≡ first_free places.now }
    ensures within { result ≤ length places.now }
{
    free_place(places).unwrap_or(places.len())
}

// Puts an item at the first free place.
pub fn place<T: Copy>(places: &mut [Option<T>], item: T) -> Result<(), Misfit>
    ensures answer { result ≡ fits places.old }
    ensures after { places.new ≡ (if is_ok result then placed places.old item else places.old) }
{
    let i = first_free(places);
    if i < places.len() {
        places[i] = Some(item);
        Ok(())
    } else {
        Err(Misfit::RowFull)
    }
}
