//! The question of an object of texts, which needs no copy of any.
ghost use Rattle.std.specs.Prelude.{◌≡◌, true, Some, OnSome, IfSome, ◌≤◌, length, option_map, option_and_then, codes};
ghost use Rattle.std.specs.List.{list_all};
ghost use Rattle.json.specs.Value.{value_view, members_view};
ghost use Rattle.line_wire.specs.Plain.{is_text_at, are_texts, is_plain, text_at, question_in_json};
ghost use Rattle.line_wire.specs.Kept.{written_of};
ghost use Rattle.line_wire.specs.Questions.{ask_of, question_of, text_of};

use crate::question::{Ask, Question, ask_of, is_key, with_name};
use json::{Scratch, Value};
use std::alloc::Global;

fn is_text_at(key: &str, value: &Value) -> bool
    ensures { result ≡ is_text_at key.now (value_view value.now) }
{
    is_key(key) && value.as_str().is_some()
}

fn are_texts(members: &[(&str, Value)]) -> bool
    ensures { result ≡ list_all (λ m. is_text_at m.0.now (value_view m.1)) members.now }
{
    members.iter().all(|member| is_text_at(member.0, &member.1))
}

#[tactic(auto, using(crate::proofs::PlainMembers::object_view, crate::proofs::PlainMembers::are_texts_view))]
fn is_plain(value: &Value) -> bool
    ensures { result ≡ is_plain (value_view value.now) }
{
    match value {
        Value::Object(members) => are_texts(members.as_slice()),
        _ => false,
    }
}

fn text_at<'a>(value: &Value<'a>, key: &str) -> Option<&'a str>
    ensures { option_map (λ s. s.now) result ≡ text_at key.now (value_view value.now) }
{
    value.get(key).and_then(Value::as_str)
}

// What the word at `ask` asks for.
fn ask_at(value: &Value) -> Option<Ask>
    ensures { result ≡ option_and_then ask_of (text_at (codes "ask") (value_view value.now)) }
{
    match text_at(value, "ask") {
        Some(word) => ask_of(word),
        None => None,
    }
}

// The question that a value writes, if it is an object of known keys with texts.
fn plain_question<'a>(value: &Value<'a>) -> Option<Question<'a>>
    ensures plain { OnSome result (is_plain (value_view value.now) ≡ true) }
    ensures writes { IfSome result (λ question. question_in_json (value_view value.now) ≡ Some (written_of question)) }
{
    if !is_plain(value) {
        return None;
    }
    match (text_at(value, "where"), ask_at(value)) {
        (Some(text), Some(ask)) => with_name(ask, text_at(value, "column"), text),
        _ => None,
    }
}

/// The question of a line that is an object of known keys with texts. None of its texts is longer than the line.
pub(crate) fn read_plain<'a>(
    alloc: Global,
    line: &'a [u8],
    scratch: &'a mut Scratch,
) -> Option<Question<'a>>
    ensures writes { IfSome result (λ question. question_of line.now ≡ Some (written_of question)) }
    ensures short { IfSome result (λ question. length (text_of (written_of question)) ≤ length line.now) }
{
    match Value::from_slice(alloc, line, scratch) {
        Ok(value) => plain_question(&value),
        Err(_) => None,
    }
}
