// tokenizer.rs: the names of the complete states, the step that calls a state's function, and the run over what is left of a line.
ghost use Rattle.std.specs.Prelude.{◌≡◌, drop};
ghost use Rattle.flow.specs.CompleteMachine.{stepOf, accepts, runOf};

use crate::html_flow;
use lexical::slice::from_indices;
use rules::Rules;

#[derive(Clone, Copy, Debug, PartialEq, Eq)]
pub enum StateName {
    CompleteClosingTagAfter,
    CompleteAttributeNameBefore,
    CompleteAttributeName,
    CompleteAttributeNameAfter,
    CompleteAttributeValueBefore,
    // With the quotation mark.
    CompleteAttributeValueQuoted(u8),
    CompleteAttributeValueQuotedAfter,
    CompleteAttributeValueUnquoted,
    CompleteEnd,
    CompleteAfter,
}

// What a state does with a byte: take it and go on with a state, end the line there, or not take it.
#[derive(Clone, Copy, Debug, PartialEq, Eq)]
pub enum State {
    Next(StateName),
    Ok,
    Nok,
}

// The state's function on the byte.
#[tactic(auto, unfolding(crate::specs::CompleteMachine::stepOf))]
fn step(rules: Rules, state: StateName, b: u8) -> State
    ensures { result ≡ stepOf rules state b }
{
    match state {
        StateName::CompleteClosingTagAfter => html_flow::complete_closing_tag_after(b),
        StateName::CompleteAttributeNameBefore => html_flow::complete_attribute_name_before(
            rules, b,
        ),
        StateName::CompleteAttributeName => html_flow::complete_attribute_name(rules, b),
        StateName::CompleteAttributeNameAfter => html_flow::complete_attribute_name_after(rules, b),
        StateName::CompleteAttributeValueBefore => html_flow::complete_attribute_value_before(
            rules, b,
        ),
        StateName::CompleteAttributeValueQuoted(marker) =>
            html_flow::complete_attribute_value_quoted(marker, b),
        StateName::CompleteAttributeValueQuotedAfter =>
            html_flow::complete_attribute_value_quoted_after(rules, b),
        StateName::CompleteAttributeValueUnquoted => html_flow::complete_attribute_value_unquoted(
            rules, b,
        ),
        StateName::CompleteEnd => html_flow::complete_end(b),
        StateName::CompleteAfter => html_flow::complete_after(b),
    }
}

// Whether a line may end in the state.
fn may_end(state: StateName) -> bool
    ensures { result ≡ accepts state }
{
    state == StateName::CompleteAfter
}

// From a state at an index to the end of the line.
pub(crate) fn run(rules: Rules, line: &[u8], from: usize, start: StateName) -> bool
    ensures { result ≡ runOf rules start (drop from line.now) }
{
    let mut state = start;
    for b in from_indices(line, from, line.len()) {
        match step(rules, state, *b) {
            State::Next(next) => state = next,
            State::Ok => return true,
            State::Nok => return false,
        }
    }
    may_end(state)
}
