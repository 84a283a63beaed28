//! What is written of a plain file is what is read of it.
ghost use Rattle.parquet_plain.specs.Laws.{BodiesSpell, CountsAreTrue, EndsAreRead, EndsBound};
ghost use Rattle.parquet_plain.specs.Laws.{FootersAreRead, HeadersAreRead, IndexesAreRead, LocationsAreRead};
ghost use Rattle.parquet_plain.specs.Laws.{LocationsAreTrue, LocationsHaveShape, PagesAreLocated, PagesAreRead};
ghost use Rattle.parquet_plain.specs.Laws.{HaveNoDictionary, PartsStand, PiecesAreWhole, PiecesCountAll, RowsAreDivided};
ghost use Rattle.parquet_plain.specs.Orders.{IsNumber, numbers_at_most};

/// Page headers and indexes are read back from their bytes, whatever stands behind them.
pub fn structs_are_read_back()
    ensures headers { HeadersAreRead }
    ensures locations { LocationsAreRead }
    ensures indexes { IndexesAreRead }
{}

/// The footer of a file that fits says what it was written from, and each part stands where it says.
pub fn files_are_read_back()
    ensures footers { FootersAreRead }
    ensures parts { PartsStand }
{}

/// The pages of a chunk are read back, in order and by their locations.
pub fn pages_are_read_back()
    ensures pages { PagesAreRead }
    ensures dictionary { HaveNoDictionary }
    ensures counts { CountsAreTrue }
    ensures locations { LocationsAreTrue }
    ensures shape { LocationsHaveShape }
    ensures rows { RowsAreDivided }
    ensures located { PagesAreLocated }
{}

/// The body of a page spells the items that it was written from.
pub fn bodies_are_read_back()
    ensures { BodiesSpell }
{}

/// The pages of a column hold all its items, in order.
pub fn pages_hold_all_items()
    ensures whole { PiecesAreWhole }
    ensures count { PiecesCountAll }
{}

/// The ends of items are bounds of all of them, and numbers are read back from their ends.
pub fn ends_are_true()
    ensures numbers { EndsBound IsNumber numbers_at_most }
    ensures back { EndsAreRead }
{}
