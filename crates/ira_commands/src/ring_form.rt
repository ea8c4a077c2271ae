ghost use Rattle.std.specs.Prelude.{◌≡◌};
ghost use Rattle.ira_commands.specs.RingForm.{answer_form, leaders_of, needs_files, shows_left};

use crate::ring_leaders::RingLeaders;
use crate::ring_moment::RingMoment;
use ira_view::Form;
use ira_view_picture::ColumnRange;

/// How a ring is shown as lines: an order of all events through its moment, or else what it looks like then.
#[derive(Clone, Copy)]
pub struct LinesForm<'v> {
    pub form: Form,
    pub has_events: bool,
    pub leaders: RingLeaders<'v>,
}

/// In which form a ring is shown.
#[derive(Clone, Copy)]
pub enum RingForm<'v> {
    Lines(LinesForm<'v>),
    /// A picture of what happened at these columns.
    Picture(ColumnRange),
    /// A page to move in such a picture.
    Html(ColumnRange),
}

impl<'v> RingForm<'v> {
    /// In which form an answer is told where there is no ring to show.
    pub(crate) fn of_answer(&self) -> Form
        ensures { result ≡ answer_form self.now }
    {
        match *self {
            RingForm::Lines(lines) => lines.form,
            RingForm::Picture(_) | RingForm::Html(_) => Form::Words,
        }
    }

    /// Whether what is left of logs is shown in it where their texts break off: as pictures, as pages, and in words without
    /// all events, at their end.
    pub(crate) fn shows_left(&self, moment: &RingMoment<'_>) -> bool
        ensures { result ≡ shows_left self.now moment.now }
    {
        match *moment {
            RingMoment::AtEnd => match *self {
                RingForm::Lines(lines) => match lines.form {
                    Form::Words => !lines.has_events,
                    Form::Json => false,
                },
                RingForm::Picture(_) | RingForm::Html(_) => true,
            },
            RingMoment::AtCut(_) | RingMoment::OfQuestion(_) => false,
        }
    }

    /// Whether it tells of logs with their texts and the names of their files: in a page, and where it shows what is left of them.
    pub(crate) fn needs_files(&self, moment: &RingMoment<'_>) -> bool
        ensures { result ≡ needs_files self.now moment.now }
    {
        match *self {
            RingForm::Html(_) => true,
            RingForm::Lines(_) | RingForm::Picture(_) => self.shows_left(moment),
        }
    }

    /// Who is to lead.
    pub(crate) fn leaders(&self) -> RingLeaders<'v>
        ensures { result ≡ leaders_of self.now }
    {
        match *self {
            RingForm::Lines(lines) => lines.leaders,
            RingForm::Picture(_) | RingForm::Html(_) => RingLeaders::NotAsked,
        }
    }
}
