//! The question that a value writes.
ghost use Rattle.std.specs.Prelude.{◌≡◌, List, option_and_then, option_map, string_bytes, codes};
ghost use Rattle.std.specs.List.{list_all};
ghost use Rattle.std.specs.BTreeMap.{keys};
ghost use Rattle.serde_json.specs.Data.{string};
ghost use Rattle.serde_json.specs.View.{view};
ghost use Rattle.serde_json.specs.Find.{as_object, as_str, get};
ghost use Rattle.line_wire.specs.Questions.{ask_of, is_key, has_known_keys, may_be_text, question_in, with_column, wants};
ghost use Rattle.line_wire.specs.Kept.{written_of};

use schema_json::Role;
use serde_json::{Map, Value};

/// What a question takes of a column.
#[derive(Clone, Copy, Drop)]
pub enum Take {
    Sum,
    Avg,
    Max,
    Min,
}

#[derive(Clone, Copy, Drop)]
pub(crate) enum Ask {
    Count,
    Of(Take),
}

/// A question as its line writes it: how many rows satisfy a condition, or what they come to in a column.
#[derive(Clone, Copy, Drop)]
pub(crate) enum Question<'a> {
    Count {
        text: &'a str,
    },
    Of {
        take: Take,
        column: &'a str,
        text: &'a str,
    },
}

pub(crate) fn ask_of(word: &str) -> Option<Ask>
    ensures { result ≡ ask_of word.now }
{
    match word {
        "count" => Some(Ask::Count),
        "sum" => Some(Ask::Of(Take::Sum)),
        "avg" => Some(Ask::Of(Take::Avg)),
        "max" => Some(Ask::Of(Take::Max)),
        "min" => Some(Ask::Of(Take::Min)),
        _ => None,
    }
}

/// Whether a question takes a column of this kind.
pub(crate) fn wants(take: Take, role: Role) -> bool
    ensures { result ≡ wants take role }
{
    match take {
        Take::Sum => matches!(role, Role::Sum),
        Take::Avg => matches!(role, Role::Sum),
        Take::Max => matches!(role, Role::Max),
        Take::Min => matches!(role, Role::Min),
    }
}

pub(crate) fn is_key(key: &str) -> bool
    ensures { result ≡ is_key key.now }
{
    match key {
        "ask" => true,
        "column" => true,
        "where" => true,
        "user" => true,
        _ => false,
    }
}

fn keys_are_known(map: &Map<String, Value>) -> bool
    ensures { result ≡ list_all (λ k. is_key (string_bytes k)) (keys map.now) }
{
    map.keys().all(|key| is_key(key.as_str()))
}

#[tactic(auto, using(crate::proofs::KnownKeys::keys_are_known_view))]
fn has_known_keys(value: &Value) -> bool
    ensures { result ≡ has_known_keys (as_object (view value.now)) }
{
    match value.as_object() {
        Some(map) => keys_are_known(map),
        None => false,
    }
}

fn may_be_text(value: Option<&Value>) -> bool
    ensures { result ≡ may_be_text (option_map (λ v. view v.now) value.entry) }
{
    match value {
        Some(value) => value.as_str().is_some(),
        None => true,
    }
}

/// The question with a column of this name, or with none.
pub(crate) fn with_name<'a>(ask: Ask, name: Option<&'a str>, text: &'a str) -> Option<Question<'a>>
    ensures { option_map written_of result ≡ with_column ask (option_map (λ s. string s.now) name.entry) text.now }
{
    match (ask, name) {
        (Ask::Count, None) => Some(Question::Count { text }),
        (Ask::Of(take), Some(column)) => Some(Question::Of { take, column, text }),
        _ => None,
    }
}

fn with_column<'a>(ask: Ask, column: Option<&'a Value>, text: &'a str) -> Option<Question<'a>>
    ensures { option_map written_of result ≡ with_column ask (option_map (λ v. view v.now) column.entry) text.now }
{
    match column {
        None => with_name(ask, None, text),
        Some(value) => match value.as_str() {
            Some(name) => with_name(ask, Some(name), text),
            None => None,
        },
    }
}

fn text_at<'a>(value: &'a Value, key: &str) -> Option<&'a str>
    ensures { option_map (λ s. s.now) result ≡ option_and_then as_str (get key.now (view value.now)) }
{
    value.get(key).and_then(Value::as_str)
}

// What the word at `ask` asks for.
fn ask_at(value: &Value) -> Option<Ask>
    ensures { result ≡ option_and_then ask_of (option_and_then as_str (get (codes "ask") (view value.now))) }
{
    match text_at(value, "ask") {
        Some(word) => ask_of(word),
        None => None,
    }
}

/// The question that a value writes, if it writes one.
#[tactic(auto, unfolding(crate::specs::Questions::question_in))]
pub(crate) fn question_in(value: &Value) -> Option<Question<'_>>
    ensures { option_map written_of result ≡ question_in (view value.now) }
{
    if !has_known_keys(value) || !may_be_text(value.get("user")) {
        return None;
    }
    match (text_at(value, "where"), ask_at(value)) {
        (Some(text), Some(ask)) => with_column(ask, value.get("column"), text),
        _ => None,
    }
}
