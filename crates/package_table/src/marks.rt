//! Going back to the packages as they were: `mark`, `back_to`, `settle`.
ghost use Rattle.std.specs.Prelude.{◌≡◌, ◌<◌, length, take, Some, IfOk, IfErr};
ghost use Rattle.std.specs.List.{slice_get};
ghost use Rattle.package_table.specs.Numbers.{table_now, with_mark, without_marks};

use crate::Packages;
use std::alloc::AllocError;

impl Packages {
    /// Marks the packages as they are, so that `back_to` can go back to them, and gives the number of the mark. What
    /// is kept only grows, so that a mark is how much there is of it.
    ///
    /// # Errors
    /// `AllocError` if memory runs out. Nothing is changed then.
    pub fn mark(&mut self) -> Result<usize, AllocError>
        ensures ok { IfOk result
            (λ mark. (mark ≡ length self.old.1.marked) × (self.new ≡ with_mark self.old)) }
        ensures err { IfErr result (λ _. self.new ≡ self.old) }
    {
        let mark = self.marks.len();
        self.sets.goodness();
        self.marks.reserve(1)?;
        self.marks.push_reserved(self.sets.sizes());
        Ok(mark)
    }

    /// How many marks there are; they have the numbers below. Takes no memory.
    pub fn mark_count(&self) -> usize
        ensures { result ≡ length self.now.1.marked }
    {
        self.marks.len()
    }

    /// Goes back to the packages as they were at this mark, each symbol with the number that it had, and takes this
    /// mark and all later ones away. Takes no memory.
    pub fn back_to(&mut self, mark: usize)
        requires { mark < length self.old.1.marked }
        ensures past { self.new.1.marked ≡ take mark self.old.1.marked }
        ensures now { slice_get self.old.1.marked mark ≡ Some (table_now self.new) }
    {
        let sizes = self.marks[mark];
        self.marks.truncate(mark);
        self.sets.cut(sizes);
    }

    /// Takes all marks away: the packages stay as they are. Takes no memory.
    pub fn settle(&mut self)
        ensures { self.new ≡ without_marks self.old }
    {
        self.marks.clear();
    }
}
