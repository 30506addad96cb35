// A sheet: its tables, and its constants, which stay with the caller.
ghost use Rattle.std.specs.Prelude.{◌≡◌, length};

use crate::table::Table;

#[derive(Drop)]
pub struct Sheet<'a, V> {
    pub(crate) table: Table,
    pub(crate) constants: &'a [V],
    ghost counted: { table.constants ≡ length constants.now },
}
