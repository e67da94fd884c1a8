// What is known of the closers that lie ahead in a paragraph. Where a comment, an instruction, a declaration or a CDATA section found no closer, none lies ahead,
// and a later opening of its form need not be read. That this keeps the cost linear is argued and measured, not proved (docs/DECISIONS.md, 24).
ghost use Rattle.std.specs.Prelude.{◌≡◌};
ghost use Rattle.walk.specs.Closer.{formOf, isDeclaration, isAhead, without as withoutOf, allAhead};

use lexical::byte::{is_letter, peek};

// What an opening is, as far as closers go.
#[derive(Clone, Copy)]
pub(crate) enum Form {
    Comment,
    Instruction,
    Declaration,
    Cdata,
    Other,
}

// For each form whether a closer may lie ahead.
#[derive(Clone, Copy, PartialEq, Eq)]
pub struct Closers {
    comment: bool,
    instruction: bool,
    declaration: bool,
    cdata: bool,
}

// Whether a text begins with `<!` and a letter.
fn is_declaration(text: &[u8]) -> bool
    ensures { result ≡ isDeclaration text.now }
{
    text.starts_with(b"<!") && peek(text, 2).is_some_and(is_letter)
}

impl Form {
    // The form of the opening that a text begins with.
    pub(crate) fn of(text: &[u8]) -> Form
        ensures { result ≡ formOf text.now }
    {
        if text.starts_with(b"<?") {
            return Form::Instruction;
        }
        // Most openings are of no form, and are known by two bytes.
        if !text.starts_with(b"<!") {
            return Form::Other;
        }
        if text.starts_with(b"<!--") {
            return Form::Comment;
        }
        if text.starts_with(b"<![CDATA[") {
            return Form::Cdata;
        }
        if is_declaration(text) {
            return Form::Declaration;
        }
        Form::Other
    }
}

impl Closers {
    // In front of a paragraph: any closer may lie ahead.
    pub(crate) fn all() -> Closers
        ensures { result ≡ allAhead }
    {
        Closers {
            comment: true,
            instruction: true,
            declaration: true,
            cdata: true,
        }
    }

    // The form of an opening, as far as it tells whether its closer may lie ahead: while every closer may, it is not looked at.
    pub(crate) fn asked(self, text: &[u8]) -> Form
        ensures ahead { isAhead self result ≡ isAhead self (formOf text.now) }
        ensures form { (self ≡ allAhead → ⊥) → result ≡ formOf text.now }
    {
        if self == Closers::all() {
            return Form::Other;
        }
        Form::of(text)
    }

    // What is left where an opening found no closer. The form that was asked for is used again; while every closer may lie ahead none was, and it is looked at here.
    pub(crate) fn missed(self, asked: Form, text: &[u8]) -> Closers
        requires { (self ≡ allAhead → ⊥) → asked ≡ formOf text.now }
        ensures { result ≡ withoutOf self (formOf text.now) }
    {
        if self == Closers::all() {
            return self.without(Form::of(text));
        }
        self.without(asked)
    }

    // Whether a closer of the form may lie ahead.
    pub(crate) fn is_ahead(self, form: Form) -> bool
        ensures { result ≡ isAhead self form }
    {
        match form {
            Form::Comment => self.comment,
            Form::Instruction => self.instruction,
            Form::Declaration => self.declaration,
            Form::Cdata => self.cdata,
            Form::Other => true,
        }
    }

    // No closer of the form lies ahead.
    pub(crate) fn without(self, form: Form) -> Closers
        ensures { result ≡ withoutOf self form }
    {
        match form {
            Form::Comment => Closers {
                comment: false,
                ..self
            },
            Form::Instruction => Closers {
                instruction: false,
                ..self
            },
            Form::Declaration => Closers {
                declaration: false,
                ..self
            },
            Form::Cdata => Closers {
                cdata: false,
                ..self
            },
            Form::Other => self,
        }
    }
}
