//! Planning a line.
ghost use Rattle.std.specs.Prelude.{◌≡◌, ◌≤◌, true, length, IfOk, MatchResult, Some};
ghost use Rattle.audit_types.specs.Headcount.{people_behind};
ghost use Rattle.schema_json.specs.SecretShape.{HasSecret};
ghost use Rattle.set_index.specs.Asked.{fits_public, meaning};
ghost use Rattle.set_index.specs.Indexed.{public_counts, public_shape};
ghost use Rattle.predicate_lang.specs.Trees.{tree_of};
ghost use Rattle.line_wire.specs.Lines.{text};
ghost use Rattle.line_wire.specs.Reply.{IsInRange};
ghost use Rattle.line_wire.specs.Requests.{CanBeAsked, IsWithin, kind_for};
ghost use Rattle.question_plan.specs.Plans.{CanBeServed, condition_of};
ghost use Rattle.question_plan.specs.Replies.{IsPlan, plan_of, question_over, refusal};

use audit_types::{Asked, NoMemory, RowSet};
use json::Scratch;
use line_wire::{LineFault, Reply, Request, Take, read_line_request};
use predicate_lang::Pred;
use set_index::{Index, reads_what_fits};
use std::alloc::Global;

/// What a line comes to before any history is known.
#[derive(Clone, Copy)]
pub enum Plan {
    /// The reply, which is due after every history.
    Ready(Reply),
    /// The question that has to be decided. An answer is told as what is taken of the column, over so many people.
    Ask {
        take: Take,
        people: u64,
        asked: Asked,
    },
}

// The people behind the rows of a condition.
fn plan_count(index: &Index, pred: &Pred) -> Plan
    requires fits { fits_public index.now.public (tree_of pred.now) ≡ true }
    ensures exact { result ≡ Plan.Ready (Reply.Count (people_behind (public_counts index.now) (meaning index.now.public (tree_of pred.now)))) }
    ensures served { CanBeServed (public_shape index.now) result }
{
    let mut rows = RowSet::new(index.public().rows());
    index.fill_rows_of(pred, &mut rows);
    Plan::Ready(Reply::Count(index.people(&rows)))
}

// What a question of a secret column comes to.
fn plan_question(index: &Index, take: Take, column: u8, pred: &Pred) -> Plan
    requires fits { fits_public index.now.public (tree_of pred.now) ≡ true }
    requires has { HasSecret index.now.columns column (kind_for take) }
    ensures exact { result ≡ question_over take column index.now.public.rows (public_counts index.now) (meaning index.now.public (tree_of pred.now)) }
    ensures served { CanBeServed (public_shape index.now) result }
{
    let mut rows = RowSet::new(index.public().rows());
    index.fill_rows_of(pred, &mut rows);
    if rows.is_empty() {
        return Plan::Ready(Reply::Empty);
    }
    Plan::Ask {
        take,
        people: index.people(&rows),
        asked: Asked { column, rows },
    }
}

// What a request comes to.
fn plan_request(index: &Index, request: &Request) -> Plan
    requires fits { fits_public index.now.public (condition_of request.now) ≡ true }
    requires can { CanBeAsked index.now.columns request.now }
    ensures exact { result ≡ plan_of (public_counts index.now) index.now.public request.now }
    ensures served { CanBeServed (public_shape index.now) result }
{
    match request {
        Request::Count { pred } => plan_count(index, pred),
        Request::Sum { column, pred } => plan_question(index, Take::Sum, *column, pred),
        Request::Avg { column, pred } => plan_question(index, Take::Avg, *column, pred),
        Request::Max { column, pred } => plan_question(index, Take::Max, *column, pred),
        Request::Min { column, pred } => plan_question(index, Take::Min, *column, pred),
    }
}

// The reply that tells why a line is refused.
fn refused(fault: LineFault) -> Result<Reply, NoMemory>
    requires { IsWithin 8192 fault }
    ensures { IfOk result (λ reply. (refusal fault ≡ Some (Plan.Ready reply)) × IsInRange reply) }
{
    match fault {
        LineFault::Line => Ok(Reply::Line),
        LineFault::Column => Ok(Reply::Column),
        LineFault::Kind => Ok(Reply::Kind),
        LineFault::Condition { at } => Ok(Reply::Condition { at }),
        LineFault::NoMemory => Err(NoMemory),
    }
}

/// Plans a line by the public part of a table alone. A question that it gives can be decided over each table of the
/// schema with as many rows, and a reply that it gives can be written. The scratch is kept from line to line.
pub fn plan_line(
    alloc: Global,
    index: &Index,
    line: &[u8],
    scratch: &mut Scratch,
) -> Result<Plan, NoMemory>
    requires short { length line.now ≤ 8192 }
    ensures planned { IfOk result (IsPlan index.now.columns index.now.public (text line.now)) }
    ensures served { IfOk result (CanBeServed (public_shape index.now)) }
{
    reads_what_fits();
    match read_line_request(alloc, index.schema(), line, scratch) {
        Ok(request) => Ok(plan_request(index, &request)),
        Err(fault) => Ok(Plan::Ready(refused(fault)?)),
    }
}
