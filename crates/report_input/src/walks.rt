//! Walks to values in a text of JSON.
ghost use Rattle.std.specs.Prelude.{◌≡◌, IfSome, true};
ghost use Rattle.report_input.specs.Spans.{IsItem, IsMember, Leads, LeadsBy};

use crate::steps::Step;
use json::{MAX_DEPTH, Reader, Token};

/// Passes the members of an object before one of this name, and its key. Returns the byte at which the key begins, if it has such a member.
#[tactic(auto, using(crate::proofs::SpanLemmas::found_member, crate::proofs::SpanLemmas::one_more_member))]
pub fn enter_member(reader: &mut Reader<'_>, name: &str) -> Option<usize>
    ensures { IfSome result (λ _. IsMember name.now reader.old reader.new) }
{
    for _passed in 0..usize::MAX {
        let key_at = reader.offset();
        match reader.next_key() {
            Ok(Some(key)) => {
                if key == name {
                    return Some(key_at);
                }
                reader.skip_value(MAX_DEPTH).ok()?;
            }
            _ => return None,
        }
    }
    None
}

/// Passes the items of an array before the one of this index. Returns whether it has such an item.
#[tactic(auto, using(crate::proofs::SpanLemmas::found_item, crate::proofs::SpanLemmas::one_more_item))]
fn enter_item(reader: &mut Reader<'_>, index: usize) -> bool
    ensures { result ≡ true → IsItem index reader.old reader.new }
{
    for _passed in 0..index {
        if reader.take_end_array() || reader.skip_value(MAX_DEPTH).is_err() {
            return false;
        }
    }
    !reader.take_end_array()
}

/// Takes a step from the value that comes next. Returns whether there is a value where it leads.
fn enter(reader: &mut Reader<'_>, step: &Step) -> bool
    ensures { result ≡ true → LeadsBy step.now reader.old reader.new }
{
    match step {
        Step::Member(name) => match reader.next() {
            Some(Token::BeginObject) => enter_member(reader, name.as_str()).is_some(),
            _ => false,
        },
        Step::Item(index) => match reader.next() {
            Some(Token::BeginArray) => enter_item(reader, *index),
            _ => false,
        },
    }
}

/// Takes steps from the value that comes next. Returns whether there is a value where they lead.
pub fn walk(reader: &mut Reader<'_>, steps: &[Step]) -> bool
    ensures { result ≡ true → Leads steps.now reader.old reader.new }
{
    for step in steps {
        if !enter(reader, step) {
            return false;
        }
    }
    true
}
