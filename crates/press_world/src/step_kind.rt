ghost use Rattle.std.specs.Prelude.{◌≡◌};
ghost use Rattle.press_world.specs.ScheduleFile.{kind_by_word};

/// What a step of a schedule does.
#[derive(Clone, Copy, Debug, PartialEq, Eq)]
pub(crate) enum StepKind {
    Submit,
    Wake,
    Deliver,
    Restart,
    Get,
}

impl StepKind {
    /// The kind of that word.
    pub fn by_word(word: &str) -> Option<StepKind>
        ensures { result ≡ kind_by_word word.now }
    {
        if word == "submit" {
            Some(StepKind::Submit)
        } else if word == "wake" {
            Some(StepKind::Wake)
        } else if word == "deliver" {
            Some(StepKind::Deliver)
        } else if word == "restart" {
            Some(StepKind::Restart)
        } else if word == "get" {
            Some(StepKind::Get)
        } else {
            None
        }
    }
}
