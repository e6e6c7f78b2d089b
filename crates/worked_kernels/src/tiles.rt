//! Laws of worked tiles, carried by a function that does nothing.

ghost use Rattle.std.specs.Prelude.{false, true};
ghost use Rattle.barrier_placement.specs.Conflicts.{Local};
ghost use Rattle.barrier_placement.specs.Separates.{Separates};
ghost use Rattle.worked_kernels.specs.Tiles.{tile_touches, open_end, wrong_flag, TilesKeep, TilesServe, AlignedTilesKeep, ExchangedTilesKeep, FourKeep, FourExchangedKeep};

use group_phases::laws::numbered_phases_keep;

/// Tiles by way of local memory, at every launch of one row: with any barriers that
/// separate the two phases; with none where each item reads what it copied; with two
/// where it reads its neighbour's.
/// One that doesn't close the loop, or barriers for global memory, don't separate the phases.
pub fn tiles_keep()
    ensures separated { TilesKeep }
    ensures serve { TilesServe }
    ensures aligned { AlignedTilesKeep }
    ensures exchanged { ExchangedTilesKeep }
    ensures four { FourKeep }
    ensures four_exchanged { FourExchangedKeep }
    ensures open_end { Separates (tile_touches true) Local false 2 open_end → ⊥ }
    ensures wrong_flag { Separates (tile_touches true) Local false 2 wrong_flag → ⊥ }
{
    numbered_phases_keep();
}
