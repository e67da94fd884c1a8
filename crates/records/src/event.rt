// event.rs: what is entered and exited, as far as a trace has it.
ghost use Rattle.std.specs.Prelude.{◌≡◌, ◌≤◌};
ghost use Rattle.records.specs.Answer.{eventNumber, formNumber, wholeOf, dataOf};

// What an event enters or exits, with the number of its enter.
#[derive(Clone, Copy, Debug, PartialEq, Eq)]
pub enum Name {
    HtmlFlow = 1,
    HtmlFlowData = 3,
    LineEnding = 5,
    HtmlText = 7,
    HtmlTextData = 9,
    SpaceOrTab = 11,
}

#[derive(Clone, Copy, Debug, PartialEq, Eq)]
pub enum Kind {
    Enter,
    Exit,
}

// What a trace is of, an inline piece or a block, with the number of its last record.
#[derive(Clone, Copy, Debug, PartialEq, Eq)]
pub enum Form {
    Text = 13,
    Flow = 14,
}

impl Form {
    // What is entered first and exited last, and the bytes of a line in it.
    pub fn whole(self) -> Name
        ensures { result ≡ wholeOf self }
    {
        match self {
            Form::Text => Name::HtmlText,
            Form::Flow => Name::HtmlFlow,
        }
    }

    pub fn data(self) -> Name
        ensures { result ≡ dataOf self }
    {
        match self {
            Form::Text => Name::HtmlTextData,
            Form::Flow => Name::HtmlFlowData,
        }
    }
}

// The number of an event: an exit is one more than its enter.
pub(crate) fn event_number(kind: Kind, name: Name) -> u8
    ensures { result ≡ eventNumber kind name }
{
    match kind {
        Kind::Enter => name as u8,
        Kind::Exit => name as u8 + 1,
    }
}

// The event of a number.
pub(crate) fn event_of(number: u8) -> (Kind, Name)
    requires from { 1 ≤ number }
    requires to { number ≤ 12 }
    ensures { eventNumber result.0 result.1 ≡ number }
{
    match number {
        1 => (Kind::Enter, Name::HtmlFlow),
        2 => (Kind::Exit, Name::HtmlFlow),
        3 => (Kind::Enter, Name::HtmlFlowData),
        4 => (Kind::Exit, Name::HtmlFlowData),
        5 => (Kind::Enter, Name::LineEnding),
        6 => (Kind::Exit, Name::LineEnding),
        7 => (Kind::Enter, Name::HtmlText),
        8 => (Kind::Exit, Name::HtmlText),
        9 => (Kind::Enter, Name::HtmlTextData),
        10 => (Kind::Exit, Name::HtmlTextData),
        11 => (Kind::Enter, Name::SpaceOrTab),
        _ => (Kind::Exit, Name::SpaceOrTab),
    }
}

// The form of a last record's number.
pub(crate) fn form_of(number: u8) -> Form
    requires from { 13 ≤ number }
    requires to { number ≤ 14 }
    ensures { formNumber result ≡ number }
{
    if number == Form::Text as u8 {
        return Form::Text;
    }
    Form::Flow
}
