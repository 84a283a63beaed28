//! Facts about the definitions that the contracts cite.
ghost use Rattle.std.specs.Prelude.{◌≡◌, ℕ, List, length};
ghost use Rattle.parquet_meta.specs.File.{footer, footer_place};
ghost use Rattle.parquet_meta.specs.Places.{bytes_at};

/// What a footer says depends on the part that is looked at alone.
pub fn footers_depend_on_the_end_alone()
    ensures { (first second : List ℕ) → length second ≡ length first
        → bytes_at second (footer_place first) ≡ bytes_at first (footer_place first) →
        (footer_place second ≡ footer_place first) × (footer second ≡ footer first) }
{}
