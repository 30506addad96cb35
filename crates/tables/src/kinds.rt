// What the tables say of each event kind.
ghost use Rattle.std.specs.Prelude.{◌≡◌, is_ok, if◌then◌else◌, slice_set};
ghost use Rattle.tables.specs.Building.{keyed_by, kind_fits, watched_too};

use scripts::Misfit;
use sheets::tables::KINDS;
use sheets::{EventKind, kind_of};

// Says something else of a kind.
fn set_kind(kinds: &mut [EventKind; KINDS], kind: u8, said: EventKind) -> Result<(), Misfit>
    ensures answer { result ≡ kind_fits kind }
    ensures after { kinds.new ≡ (if is_ok result then slice_set kinds.old kind said else kinds.old) }
{
    let place = usize::from(kind);
    if place >= KINDS {
        return Err(Misfit::NoSuchKind);
    }
    kinds[place] = said;
    Ok(())
}

// Marks a kind as watched.
pub fn watch(kinds: &mut [EventKind; KINDS], kind: u8) -> Result<(), Misfit>
    ensures answer { result ≡ kind_fits kind }
    ensures after { kinds.new ≡ (if is_ok result then watched_too kinds.old kind else kinds.old) }
{
    let said = EventKind {
        watched: true,
        ..kind_of(kinds, kind)
    };
    set_kind(kinds, kind, said)
}

// Sets the key field of a kind.
pub fn set_key(kinds: &mut [EventKind; KINDS], kind: u8, field: u8) -> Result<(), Misfit>
    ensures answer { result ≡ kind_fits kind }
    ensures after { kinds.new ≡ (if is_ok result then keyed_by kinds.old kind field else kinds.old) }
{
    let said = EventKind {
        key: field,
        ..kind_of(kinds, kind)
    };
    set_kind(kinds, kind, said)
}
