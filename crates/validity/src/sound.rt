ghost use Rattle.std.specs.Prelude.{◌≡◌, true};
ghost use Rattle.cells.specs.Validity.{valid_cells};

use tables::Cells;

// Lent tables that were found valid.
#[derive(Clone, Copy)]
pub struct Sound<'a> {
    pub cells: &'a Cells,
    ghost valid: { valid_cells cells.now ≡ true },
}
