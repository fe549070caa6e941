// What a crash may leave of a write or a cut, in full: the definitions say what it leaves at most.
ghost use Rattle.std.specs.Prelude.{ℕ, ◌+◌, ◌≤◌, List, ◌++◌, length, take};
ghost use Rattle.disk_trait.specs.Disk.{AreBytes, TornCut, Mixed, Torn, written};

/// A write or a cut that a crash cuts short may leave each mix of bytes: of a write any bytes in its range, and past the old
/// end of the file any number of them; of a cut any number of any bytes, up to the old end.
pub fn torn_images()
    ensures in_place { (at : ℕ) (old any : List ℕ)
        → AreBytes any → Torn at (length any) old (written at any old) }
    ensures past_the_end { (at n : ℕ) (old any : List ℕ)
        → AreBytes any → at ≤ length old → length old ≤ at + length any → length any ≤ n
        → Torn at n old (take at old ++ any) }
    ensures cut { (n : ℕ) (old any : List ℕ)
        → AreBytes any → n + length any ≤ length old → TornCut n old (take n old ++ any) }
{}

/// What a write may leave where writes mix, it may leave where they tear: what is proved of each honest disk holds of one that mixes.
pub fn mixed_is_torn()
    ensures { (at : ℕ) (bytes old new : List ℕ) → AreBytes bytes → AreBytes old
        → Mixed at bytes old new → Torn at (length bytes) old new }
{}
