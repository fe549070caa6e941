//! What a look at files gives that nobody writes meanwhile means what they mean.
ghost use Rattle.std.specs.Prelude.{Option};
ghost use Rattle.disk_trait.specs.Disk.{Image};
ghost use Rattle.gate_log.specs.Layout.{Contents};
ghost use Rattle.gate_log.specs.Log.{FilesMean};
ghost use Rattle.gate_log.specs.Opening.{Warrants};
ghost use Rattle.gate_log.specs.declared.error.OpenRefusal.{OpenRefusal};
ghost use Rattle.log_look.specs.FilesAtRest.{IsSightOf};

/// A sight of files that nobody wrote meanwhile means the contents that they mean, and no others, and is refused for the reasons for which
/// they are.
pub fn a_sight_means_the_same()
    ensures means { (image seen : Image) (k : Option Contents) → IsSightOf image seen
        → (FilesMean k image → FilesMean k seen) × (FilesMean k seen → FilesMean k image) }
    ensures warrants { (image seen : Image) (e : OpenRefusal) → IsSightOf image seen
        → (Warrants e image → Warrants e seen) × (Warrants e seen → Warrants e image) }
{}
