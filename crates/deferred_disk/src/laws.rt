// What a crash may leave while the orders are done.
ghost use Rattle.std.specs.Prelude.{◌≡◌, List, [], ◌++◌, length};
ghost use Rattle.disk_trait.specs.Disk.{Image};
ghost use Rattle.disk_trait.specs.Orders.{OrderValue};
ghost use Rattle.deferred_disk.specs.Disk.{calls_of, pending_of, state_by_calls};
ghost use Rattle.deferred_disk.specs.State.{OrdersMayLeave};
ghost use Rattle.deferred_disk.specs.declared.disk.DeferredDisk.{DeferredDisk};

/// A run of calls led from the old disk to the new one, say a call of a store: its clause says that what was reported done is the same
/// (`performed` of `Throughout`). Then the pending orders are done in turn on files of which that is true: they began with these
/// bytes, and these orders were done. Some are done, `first`, and those after them, `later`, are not. What a crash leaves then is
/// among what a crash might have left during the run, of which the clause speaks (`each`); or, where orders were pending before it,
/// since the last report (`before`). Lists of orders have the newest first.
pub fn between_orders()
    ensures none_open { (old new : DeferredDisk) (first later : List OrderValue) (image : Image)
        → (state_by_calls new).performed ≡ (state_by_calls old).performed
        → (state_by_calls new).mixes ≡ (state_by_calls old).mixes
        → pending_of old ≡ [] → pending_of new ≡ later ++ first
        → OrdersMayLeave (state_by_calls old).mixes (calls_of old).start (first ++ (calls_of old).done) image
        → (state_by_calls new).left_since (state_by_calls old).moment image }
    ensures some_open { (old new : DeferredDisk) (first later : List OrderValue) (image : Image)
        → (state_by_calls new).performed ≡ (state_by_calls old).performed
        → (state_by_calls new).mixes ≡ (state_by_calls old).mixes
        → pending_of new ≡ later ++ first
        → OrdersMayLeave (state_by_calls old).mixes (calls_of old).start (first ++ (calls_of old).done) image
        → (state_by_calls new).left_since (length (calls_of old).done) image }
{}
