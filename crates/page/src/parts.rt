// Eight bytes out of a slice.
ghost use Rattle.std.specs.Prelude.{◌≡◌, ◌+◌, ◌≤◌, length, take, drop};
ghost use Rattle.packing.specs.Cells.{group_cells};

use packing::GROUP_CELLS;

// Eight bytes from the place `at` on.
pub(crate) fn eight_at(bytes: &[u8], at: usize) -> [u8; GROUP_CELLS]
    requires { at + group_cells ≤ length bytes.now }
    ensures { result ≡ take group_cells (drop at bytes.now) }
{
    <[u8; GROUP_CELLS]>::try_from(&bytes[at..at + GROUP_CELLS]).unwrap()
}
