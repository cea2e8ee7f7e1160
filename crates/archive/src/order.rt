// The Z order: the position of each cell's count, from a fixed table, request 2026-09.
ghost use Rattle.archive.specs.ZOrder.{Positions};

use crate::table::POSITIONS;
use limit::TABLE_SIZE;

// The positions of all cells. A constant is laid out anew wherever it is named, so a loop takes them once, before it begins.
pub fn positions() -> [u16; TABLE_SIZE]
    ensures { Positions result }
{
    POSITIONS
}
