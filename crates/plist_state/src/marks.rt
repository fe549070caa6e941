//! Going back to a state as it was: `mark`, `put_in_place`, `back_to`, `settle`.
ghost use Rattle.std.specs.Prelude.{◌≡◌, ◌<◌, ◌++◌, true, [], ◌∷◌, List, length, take, Some, IfOk, IfErr, OnOk, OnErr};
ghost use Rattle.std.specs.List.{slice_get};
ghost use Rattle.plist_state.specs.Journal.{marks_of};
ghost use Rattle.plist_state.specs.MarkedWorlds.{IsWayBack};
ghost use Rattle.plist_state.specs.Views.{NumberedRest};
ghost use Rattle.plist_state.specs.Sizes.{AreSizes};
ghost use Rattle.plist_state.specs.State.{WorldState, Worlds};
ghost use Rattle.plist_state.specs.Undoing.{rests_at};

use crate::World;
use crate::note::Note;
use crate::replaced::Replaced;
use crate::sizes::ListSizes;
use crate::stored::tidy;
use crate::undo::undo_to;
use std::alloc::AllocError;
use std::mem;

// So many notes keep their memory.
const MOST_SPARE: usize = 64;

// What was replaced has fewer marks in all.
const MOST_EARLIER_MARKS: usize = 4_611_686_018_427_387_904;

// Whether nothing was noted since this mark, which is the newest.
fn is_unchanged(marks: &[Vec<Note>], mark: usize) -> bool
    requires { mark < length marks.now }
    ensures { result ≡ true → (r : NumberedRest) → slice_get (rests_at (marks_of marks.now) r) mark ≡ Some r }
{
    match marks.last() {
        Some(newest) => newest.is_empty() && mark + 1 == marks.len(),
        None => false,
    }
}

// Forgets the sizes that are noted, where something was noted since this mark.
fn forget_since(sizes: &mut ListSizes, marks: &[Vec<Note>], mark: usize)
    requires { mark < length marks.now }
    ensures { (r u : NumberedRest) → slice_get (rests_at (marks_of marks.now) r) mark ≡ Some u
        → AreSizes r.properties sizes.old.entries → AreSizes u.properties sizes.new.entries }
{
    if is_unchanged(marks, mark) {
        return;
    }
    sizes.clear();
}

// Takes all marks away. The memory of the newest notes is kept, where they were few.
fn let_go(marks: &mut Vec<Vec<Note>>, spare: &mut Vec<Note>)
    ensures { marks.new.items ≡ [] }
{
    if let Some(newest) = marks.pop() {
        let mut notes = newest;
        if notes.capacity() <= MOST_SPARE {
            notes.clear();
            *spare = notes;
        }
    }
    marks.clear();
}

impl World {
    /// Marks the state as it is, so that `back_to` can go back to it, and gives its index among the marks. Nothing is
    /// copied: from then on each call that writes notes what it overwrites.
    ///
    /// # Errors
    /// `AllocError` where memory runs out. Nothing has changed then.
    pub fn mark(&mut self) -> Result<usize, AllocError>
        ensures ok { IfOk result (λ mark. (mark ≡ length self.old.1)
            × (self.new ≡ (self.old.0, self.old.1 ++ self.old.0 ∷ []))) }
        ensures err { IfErr result (λ _. self.new ≡ self.old) }
    {
        self.marks.reserve(1)?;
        let mark = self.earlier_marks + self.marks.len();
        self.packages.mark()?;
        let mut spare = mem::replace(&mut self.spare, Vec::new(self.alloc));
        spare.clear();
        self.marks.push_reserved(spare);
        Ok(mark)
    }

    /// Marks the state as it is, as `mark` does, and puts another world in its place, in which no state is marked. What the
    /// world kept stays as it is until `back_to` goes back to it or to an earlier mark, or `settle` lets it go.
    ///
    /// # Errors
    /// `AllocError` where memory runs out. Nothing has changed then.
    pub fn put_in_place(&mut self, other: World) -> Result<(), AllocError>
        requires { other.1 ≡ [] }
        ensures ok { OnOk result (self.new ≡ (other.0, self.old.1 ++ self.old.0 ∷ [])) }
        ensures err { OnErr result (self.new ≡ self.old) }
    {
        let earlier_marks = self.earlier_marks + self.marks.len() + 1;
        if earlier_marks >= MOST_EARLIER_MARKS {
            return Err(AllocError);
        }
        self.earlier.reserve(1)?;
        let other = other.into_parts();
        self.earlier.push_reserved(Replaced {
            packages: mem::replace(&mut self.packages, other.packages),
            stored: mem::replace(&mut self.stored, other.stored),
            marks: mem::replace(&mut self.marks, other.marks),
            sizes: mem::replace(&mut self.sizes, other.sizes),
        });
        self.earlier_marks = earlier_marks;
        Ok(())
    }

    /// How many marks there are; their indices are the numbers below that. Takes no memory.
    pub fn mark_count(&self) -> usize
        ensures { result ≡ length self.now.1 }
    {
        self.earlier_marks + self.marks.len()
    }

    // Goes back to this mark, or, where something was put in the place of another since, to the last one of that other.
    fn go_back(&mut self, mark: usize)
        requires { mark < length self.old.1 }
        ensures { IsWayBack mark self.old self.new }
    {
        if mark < self.earlier_marks {
            let Some(before) = self.earlier.pop() else {
                unreachable!()
            };
            self.earlier_marks -= before.marks.len() + 1;
            self.packages = before.packages;
            self.stored = before.stored;
            self.marks = before.marks;
            self.sizes = before.sizes;
            return;
        }
        let own = mark - self.earlier_marks;
        self.packages.back_to(own);
        forget_since(&mut self.sizes, self.marks.as_slice(), own);
        undo_to(&mut self.stored, &mut self.marks, own);
    }

    /// Goes back to the state as it was at this mark, and takes it and all later marks away: the world is the one that was
    /// marked, with the marks that it had. It does not fail: where an index of properties wants memory that there is not,
    /// that list has none from then on.
    pub fn back_to(&mut self, mark: usize)
        requires { mark < length self.old.1 }
        ensures past { self.new.1 ≡ take mark self.old.1 }
        ensures now { slice_get self.old.1 mark ≡ Some self.new.0 }
        ensures whole { (w : Worlds) (later : List WorldState)
            → self.old.1 ≡ w.1 ++ w.0 ∷ later → length w.1 ≡ mark → self.new ≡ w }
    {
        while self.mark_count() > mark {
            self.go_back(mark);
        }
    }

    /// Takes all marks away: the state stays as it is. Takes no memory. Only now are the property lists packed from which
    /// much was taken out: as long as it may come back, it has its place.
    pub fn settle(&mut self)
        ensures { self.new ≡ (self.old.0, []) }
    {
        self.earlier.clear();
        self.earlier_marks = 0;
        self.packages.settle();
        tidy(&mut self.stored, self.marks.as_slice());
        let_go(&mut self.marks, &mut self.spare);
    }
}
