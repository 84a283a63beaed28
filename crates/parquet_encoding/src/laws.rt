//! Facts about the definitions that the contracts cite: what stands at the places that decoders give.
ghost use Rattle.std.specs.Prelude.{◌≡◌, ℕ, List, map, option_map};
ghost use Rattle.parquet_encoding.specs.Places.{bytes_in, places_of};
ghost use Rattle.parquet_encoding.specs.Plain.{plain_fixed, plain_bytes};
ghost use Rattle.parquet_encoding.specs.DeltaLength.{delta_length, delta_length_places};

/// The values of one size stand at their places.
pub fn fixed_values_stand()
    ensures { (size count : ℕ) (bytes : List ℕ)
        → option_map (map (bytes_in bytes)) (option_map (places_of 0 0) (plain_fixed size bytes count))
        ≡ plain_fixed size bytes count }
{}

/// The byte strings behind their lengths stand at their places.
pub fn strings_stand()
    ensures { (count : ℕ) (bytes : List ℕ)
        → option_map (map (bytes_in bytes)) (option_map (places_of 4 0) (plain_bytes bytes count))
        ≡ plain_bytes bytes count }
{}

/// The joined byte strings stand at their places.
pub fn joined_strings_stand()
    ensures { (count : ℕ) (bytes : List ℕ)
        → option_map (map (bytes_in bytes)) (delta_length_places bytes count) ≡ delta_length bytes count }
{}
