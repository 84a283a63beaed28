//! Where a file's bytes come from.

ghost use Rattle.std.specs.Prelude.{◌≡◌, ℕ, ◌<◌, ◌≤◌, List, Option, length, take, drop, IfOk, IfSome, OnErr};
ghost use Rattle.parquet_meta.specs.Source.{AreCounts, counted, raised};

/// A read failed.
#[derive(Clone, Copy, Debug, PartialEq, Eq)]
pub struct Failed;

/// Bytes that are read at any place.
pub trait Source {
    /// The bytes, where the source tells them. No call changes them.
    ghost told: { Self → Option (List ℕ) };

    /// How often a call failed, up to the last number that is shown. A call that answers leaves it as it was.
    ghost faults: { Self → ℕ };

    /// How many bytes were handed out, up to the last number that is shown.
    ghost taken: { Self → ℕ };

    /// What no call changes: of a reference, what it points to.
    ghost Kept: { Type 0 } = { Unit {0} };

    ghost kept: { Self → Self.Kept };

    /// How many bytes there are.
    fn size(&mut self) -> Result<u64, Failed>
        ensures same { told self.new ≡ told self.old }
        ensures kept { Self.kept self.new ≡ Self.kept self.old }
        ensures size { IfOk result (λ n. IfSome (told self.old) (λ bytes. n ≡ length bytes)) }
        ensures counted { faults self.new ≡ counted (faults self.old) result }
        ensures later { faults self.old ≤ faults self.new }
        ensures bounded { AreCounts (faults self.new) (taken self.new) }
        ensures taken { taken self.new ≡ taken self.old };

    /// Reads into the front of the buffer what stands from the place on, and says how many bytes. It is none only at
    /// the end, or where there is no room.
    fn read_at(&mut self, place: u64, out: &mut [u8]) -> Result<usize, Failed>
        ensures same { told self.new ≡ told self.old }
        ensures kept { Self.kept self.new ≡ Self.kept self.old }
        ensures at_most { IfOk result (λ n. n ≤ length out.new) }
        ensures read { IfOk result (λ n.
            IfSome (told self.old) (λ bytes. take n out.new ≡ take n (drop place bytes))) }
        ensures some { IfOk result (λ n. IfSome (told self.old) (λ bytes.
            place < length bytes → 0 < length out.old → 0 < n)) }
        ensures counted { faults self.new ≡ counted (faults self.old) result }
        ensures later { faults self.old ≤ faults self.new }
        ensures bounded { AreCounts (faults self.new) (taken self.new) }
        ensures taken { IfOk result (λ n. taken self.new ≡ raised (taken self.old) n) }
        ensures not_taken { OnErr result (taken self.new ≡ taken self.old) };
}

impl<S: Source> Source for &mut S {
    ghost use Rattle.std.specs.Borrow.{GName};

    ghost told = { λ s. S.told s.now };

    ghost faults = { λ s. S.faults s.now };

    ghost taken = { λ s. S.taken s.now };

    ghost Kept = { GName × S.Kept };

    ghost kept = { λ s. (s.ghost_name, S.kept s.now) };

    fn size(&mut self) -> Result<u64, Failed> {
        (**self).size()
    }

    fn read_at(&mut self, place: u64, out: &mut [u8]) -> Result<usize, Failed> {
        (**self).read_at(place, out)
    }
}
