// How far a session has come.
ghost use Rattle.std.specs.Prelude.{◌≡◌, ◌+◌, ◌<◌, ◌≤◌, ◌^◌};
ghost use Rattle.sessions.specs.steps.Course.{course_of, first_course, pass, pass_all};
ghost use Rattle.sessions.specs.Serve.{pace_wanted};

use crate::ending::Place;
use crate::schedule::Schedule;
use session_words::SessionOptions;

/// When the next snapshot is due, how many forms were answered, and how many bytes of the input they took.
#[derive(Drop)]
pub(crate) struct Course {
    pub(crate) schedule: Schedule,
    forms: u64,
    bytes: u64,
}

impl Course {
    /// Before the first form, with snapshots as they are wanted.
    pub(crate) fn new(wanted: SessionOptions) -> Course
        ensures { course_of result ≡ first_course (pace_wanted wanted) }
    {
        Course {
            schedule: Schedule::new(wanted.snapshot_every, wanted.snapshot_ratio),
            forms: 0,
            bytes: 0,
        }
    }

    /// The place at these offsets in what no form has taken yet.
    pub(crate) fn place(&self, start: usize, at: usize) -> Place
        requires start { self.now.bytes + start < 2 ^ 64 }
        requires at { self.now.bytes + at < 2 ^ 64 }
        ensures { (result.forms ≡ self.now.forms) × (result.start ≡ self.now.bytes + start)
            × (result.at ≡ self.now.bytes + at) }
    {
        Place {
            forms: self.forms,
            start: self.bytes + start as u64,
            at: self.bytes + at as u64,
        }
    }

    /// So many forms that took so many bytes were answered.
    pub(crate) fn pass_all(&mut self, forms: usize, bytes: usize)
        requires forms { self.old.forms ≤ self.old.bytes }
        requires order { forms ≤ bytes }
        requires room { self.old.bytes + bytes < 2 ^ 63 }
        ensures { course_of self.new ≡ pass_all forms bytes (course_of self.old) }
    {
        self.forms += forms as u64;
        self.bytes += bytes as u64;
    }

    /// A form that took so many bytes was answered.
    pub(crate) fn pass(&mut self, bytes: usize)
        requires forms { self.old.forms ≤ self.old.bytes }
        requires room { self.old.bytes + bytes < 2 ^ 63 }
        ensures { course_of self.new ≡ pass bytes (course_of self.old) }
    {
        self.forms += 1;
        self.bytes += bytes as u64;
    }
}
