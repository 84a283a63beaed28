//! Facts about the definitions that the contracts cite.
ghost use Rattle.std.specs.Prelude.{◌≡◌, ℕ, List, ◌∷◌, Option};
ghost use Rattle.parquet_base.specs.Pieces.{cut};
ghost use Rattle.page_decoding.specs.Queue.{IsChunkSize, first_chunk, later_chunks};

/// The first chunk of a list and the chunks of what is left are the cut of it.
pub fn chunks_are_the_cut<T>()
    ensures { (size : Option ℕ) (x : T) (xs : List T) → IsChunkSize size
        → cut size (x ∷ xs) ≡ first_chunk size (x ∷ xs) ∷ cut size (later_chunks size (x ∷ xs)) }
{}
