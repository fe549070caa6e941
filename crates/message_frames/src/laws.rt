//! Laws of frames and answers, as contracts of functions that do nothing.
ghost use Rattle.std.specs.Prelude.{ℕ, ◌≡◌, List};
ghost use Rattle.message_frames.specs.Frames.{Sent};
ghost use Rattle.message_frames.specs.Lists.{AnswersAreReadBack, SplitsOneWay};

/// Bytes are frames in one way, up to where no whole frame follows: so it makes no difference in which pieces they came.
pub fn bytes_are_one_list()
    ensures { SplitsOneWay }
{}

/// Answers and what comes after them are read back from their bytes: no other answers are written so.
pub fn answers_are_read_back()
    ensures { AnswersAreReadBack }
{}
