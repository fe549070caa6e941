// What is known of the sum.
ghost use Rattle.std.specs.Prelude.{◌≡◌, ◌≢◌, ℕ, List, [], codes, replicate};
ghost use Rattle.std.specs.List.{range_with_len};
ghost use Rattle.crc32c.specs.Burst.{IsBurst};
ghost use Rattle.crc32c.specs.Register.{crc32c};

/// Two texts that differ in a burst of at most 32 bits have different sums, wherever the burst is and whatever it does.
pub fn bursts()
    ensures { (text other : List ℕ) → IsBurst 32 text other → crc32c other ≢ crc32c text }
{}

/// The sums by which implementations are compared: of no byte, of nine digits, and three of RFC 3720 (B.4).
pub fn known_sums()
    ensures nothing { crc32c [] ≡ 0 }
    ensures digits { crc32c (codes "123456789") ≡ 0xE3069283 }
    ensures zeros { crc32c (replicate 32 0) ≡ 0x8A9136AA }
    ensures ones { crc32c (replicate 32 255) ≡ 0x62A8AB43 }
    ensures rising { crc32c (range_with_len 0 32) ≡ 0x46DD794E }
{}
