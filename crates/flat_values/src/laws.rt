//! Laws of the definitions.
ghost use Rattle.std.specs.Prelude.{◌≡◌, ℕ, List, Option, length, map};
ghost use Rattle.page_decoding.specs.Queue.{IsChunkSize};
ghost use Rattle.parquet_base.specs.Pieces.{cut};
ghost use Rattle.flat_values.specs.NullChunks.{cut_rows};
ghost use Rattle.flat_values.specs.Sound.{ConvertsToType, EndsAreStored, PageHasType};
ghost use Rattle.flat_values.specs.Order.{KeepsOrder, KeepsOrderOfWords};
ghost use Rattle.flat_values.specs.Agreement.{PlacesGiveItems};

/// A converted item is null or a value of the type that is asked for.
pub fn items_are_of_the_type()
    ensures { ConvertsToType }
{}

/// All items of a page are null or values of the type that is asked for.
pub fn pages_have_their_type()
    ensures { PageHasType }
{}

/// The ends of statistics are such values as their column stores, so that they are converted like them.
pub fn ends_are_stored_values()
    ensures { EndsAreStored }
{}

/// Of two timestamps that have values in a unit, the later one has no earlier value: of numbers in any stored unit, and of the times of older files.
pub fn timestamps_keep_their_order()
    ensures numbers { KeepsOrder }
    ensures words { KeepsOrderOfWords }
{}

/// Where nothing is wrong with a page, its places give what its items are.
pub fn places_give_items()
    ensures { PlacesGiveItems }
{}

/// Chunks of nulls have as many rows as the pieces of a list that is cut.
pub fn nulls_are_cut_like_rows<T>()
    ensures { (size : Option ℕ) (rows : List T) → IsChunkSize size
        → map length (cut size rows) ≡ cut_rows size (length rows) }
{}
