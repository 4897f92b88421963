//! Lines to requests.
ghost use Rattle.std.specs.Prelude.{◌≡◌, ◌≤◌, true, length, Some, IfOk, IfErr};
ghost use Rattle.serde_json.specs.View.{view};
ghost use Rattle.schema_json.specs.Reading.{value_of};
ghost use Rattle.schema_json.specs.SecretShape.{HasSecret};
ghost use Rattle.predicate_lang.specs.Trees.{Tree, tree_of, fits};
ghost use Rattle.line_wire.specs.Kept.{written_of};
ghost use Rattle.line_wire.specs.Texts.{longest};
ghost use Rattle.line_wire.specs.Questions.{Written, text_of, question_of, question_in};
ghost use Rattle.line_wire.specs.Requests.{Requests, Refuses, Asks, Reads, IsWithin, CanBeAsked, kind_for};
ghost use Rattle.line_wire.specs.Answers.{HasNoValue, FindsColumn, ReadsCondition, Answers, IsTaken};

use crate::plain::read_plain;
use crate::question::{Question, Take, question_in, wants};
use crate::request::{LineFault, Request};
use json::Scratch;
use predicate_lang::{Pred, WhereFault, read_where};
use schema_json::Schema;
use serde_json::Value;
use std::alloc::Global;

// The place of a column among the secret ones, if the question takes it.
#[tactic(auto, using(crate::proofs::FoundColumns::place_below))]
fn column_of(schema: &Schema, take: Take, name: &str) -> Result<u8, LineFault>
    ensures finds { FindsColumn schema.now.columns take name.now result }
    ensures has { IfOk result (λ c. HasSecret schema.now.columns c (kind_for take)) }
{
    let Some(place) = schema.find(name) else {
        return Err(LineFault::Column);
    };
    if !wants(take, schema.role(place)) {
        return Err(LineFault::Kind);
    }
    match schema.secret(place) {
        Some(column) => Ok(column),
        None => unreachable!(),
    }
}

// The condition that a text means.
fn condition(alloc: Global, schema: &Schema, text: &str) -> Result<Pred, LineFault>
    requires { length text.now ≤ 8192 }
    ensures exact { ReadsCondition schema.now.columns text.now result }
    ensures fitting { IfOk result (λ pred. fits schema.now.columns (tree_of pred) ≡ true) }
    ensures within { IfErr result (IsWithin 8192) }
{
    match read_where(alloc, schema, text) {
        Ok(pred) => Ok(pred),
        Err(WhereFault::Bad { at }) => Err(LineFault::Condition { at }),
        Err(WhereFault::NoMemory) => Err(LineFault::NoMemory),
    }
}

// The request that a question is. Its column is looked at before its condition.
fn request_of(alloc: Global, schema: &Schema, question: Question) -> Result<Request, LineFault>
    requires { length (text_of (written_of question)) ≤ 8192 }
    ensures exact { Answers schema.now.columns (written_of question.entry) result }
    ensures fitting { IfOk result (CanBeAsked schema.now.columns) }
    ensures within { IfErr result (IsWithin 8192) }
{
    match question {
        Question::Count { text } => match condition(alloc, schema, text) {
            Ok(pred) => Ok(Request::Count { pred }),
            Err(fault) => Err(fault),
        },
        Question::Of { take, column, text } => match column_of(schema, take, column) {
            Ok(column) => match condition(alloc, schema, text) {
                Ok(pred) => Ok(taking(take, column, pred)),
                Err(fault) => Err(fault),
            },
            Err(column_fault) => Err(column_fault),
        },
    }
}

fn taking(take: Take, column: u8, pred: Pred) -> Request
    ensures { IsTaken take column (tree_of pred) result }
{
    match take {
        Take::Sum => Request::Sum { column, pred },
        Take::Avg => Request::Avg { column, pred },
        Take::Max => Request::Max { column, pred },
        Take::Min => Request::Min { column, pred },
    }
}

// The value of a line. No text in it is longer than the line.
fn value_of(alloc: Global, line: &[u8]) -> Result<Value, LineFault>
    ensures found { IfOk result (λ value. value_of line.now ≡ Some (view value)) }
    ensures texts { IfOk result (λ value. longest (view value) ≤ length line.now) }
    ensures fault { IfErr result (HasNoValue line.now) }
{
    match Value::from_slice(alloc, line) {
        Ok(value) => Ok(value),
        Err(e) => {
            if e.is_memory() {
                Err(LineFault::NoMemory)
            } else {
                Err(LineFault::Line)
            }
        }
    }
}

/// The request that a line means, by docs/FORMATS.md. The refusals come in the order of `LineFault`.
///
/// The scratch is the memory of the reader of JSON, which is kept from line to line.
pub fn read_line_request(
    alloc: Global,
    schema: &Schema,
    line: &[u8],
    scratch: &mut Scratch,
) -> Result<Request, LineFault>
    requires { length line.now ≤ 8192 }
    // What is read is what the line means.
    ensures found { IfOk result (Requests schema.now.columns (question_of line.now)) }
    // What a line means is read.
    ensures only { (w : Written) (t : Tree) → Asks schema.now.columns (question_of line.now) w t → Reads schema.now.columns w t result }
    // A refusal is the first that holds.
    ensures fault { IfErr result (Refuses schema.now.columns (question_of line.now)) }
    // What is read can be asked of each table over the schema.
    ensures fitting { IfOk result (CanBeAsked schema.now.columns) }
    // The byte that it names can be replied.
    ensures within { IfErr result (IsWithin 8192) }
{
    if let Some(question) = read_plain(alloc, line, scratch) {
        return request_of(alloc, schema, question);
    }
    match value_of(alloc, line) {
        Ok(value) => match question_in(&value) {
            Some(question) => request_of(alloc, schema, question),
            None => Err(LineFault::Line),
        },
        Err(fault) => Err(fault),
    }
}
