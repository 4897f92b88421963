//! Predicates to texts, with brackets only where a part needs them.
ghost use Rattle.std.specs.Prelude.{◌≡◌, ◌<◌, ◌≤◌, ◌+◌, ◌++◌, ℕ, List, [], true, cond, codes, length, IfOk, OnOk, string_bytes};
ghost use Rattle.std.specs.List.{AllByRecursion};
ghost use Rattle.predicate_lang.specs.Trees.{AreTexts, IsTextLiteral, among, compared, fits, has_literals, tree_of};
ghost use Rattle.predicate_lang.specs.Places.{Means};
ghost use Rattle.predicate_lang.specs.Printing.{is_or, is_or_and, list_tokens, literal_text, op_text, printed, spaced};
ghost use Rattle.predicate_lang.specs.declared.trees.Literal.TheVariants.{Text};

use crate::trees::{Literal, Op, Pred};
use audit_types::NoMemory;
use schema_json::Schema;
use std::alloc::{AllocError, Global};

fn is_or(pred: &Pred) -> bool
    ensures { result ≡ is_or (tree_of pred.now) }
{
    match pred {
        Pred::Or(_, _) => true,
        Pred::All => false,
        Pred::Not(_) => false,
        Pred::And(_, _) => false,
        Pred::Compare { .. } => false,
        Pred::Within { .. } => false,
    }
}

fn is_or_and(pred: &Pred) -> bool
    ensures { result ≡ is_or_and (tree_of pred.now) }
{
    match pred {
        Pred::Or(_, _) => true,
        Pred::And(_, _) => true,
        Pred::All => false,
        Pred::Not(_) => false,
        Pred::Compare { .. } => false,
        Pred::Within { .. } => false,
    }
}

fn op_text(op: Op) -> &'static str
    ensures { result.now ≡ op_text op }
{
    match op {
        Op::Eq => "=",
        Op::Ne => "!=",
        Op::Lt => "<",
        Op::Le => "<=",
        Op::Gt => ">",
        Op::Ge => ">=",
    }
}

// Writes what stands before a quote, and the quote twice.
fn write_doubled(out: &mut String, front: &str) -> Result<(), AllocError>
    ensures { OnOk result (string_bytes out.new ≡ (string_bytes out.old ++ front.now) ++ codes "''") }
{
    out.push_str(front)?;
    out.push_str("''")
}

// Writes what stands after the last quote, and the quote that closes the text.
fn write_end(out: &mut String, rest: &str) -> Result<(), AllocError>
    ensures { OnOk result (string_bytes out.new ≡ (string_bytes out.old ++ rest.now) ++ codes "'") }
{
    out.push_str(rest)?;
    out.push('\'')
}

// Writes a text in quotes, each quote in it twice.
fn write_text(out: &mut String, text: &str) -> Result<(), AllocError>
    ensures { OnOk result (string_bytes out.new ≡ string_bytes out.old ++ literal_text (Text text.now)) }
{
    out.push('\'')?;
    let mut rest = text;
    'quotes: while let Some((front, behind)) = rest.split_once('\'') {
        write_doubled(out, front)?;
        rest = behind;
    }
    write_end(out, rest)
}

fn write_literal(out: &mut String, literal: &Literal) -> Result<(), AllocError>
    requires { IsTextLiteral literal.now }
    ensures { OnOk result (string_bytes out.new ≡ string_bytes out.old ++ literal_text literal.now) }
{
    match literal {
        Literal::Number(n) => write!(out, "{n}"),
        Literal::Text(word) => match str::from_utf8(word.bytes.as_slice()) {
            Ok(text) => write_text(out, text),
            Err(_) => unreachable!(),
        },
    }
}

// Writes a literal of an `in` after those before it.
fn write_next(out: &mut String, literal: &Literal) -> Result<(), AllocError>
    requires { IsTextLiteral literal.now }
    ensures { OnOk result (string_bytes out.new ≡ (string_bytes out.old ++ codes ", ") ++ literal_text literal.now) }
{
    out.push_str(", ")?;
    write_literal(out, literal)
}

// Writes the literals of an `in`, and the bracket that closes them.
fn write_literals(out: &mut String, literals: &[Literal]) -> Result<(), AllocError>
    requires some { has_literals literals.now ≡ true }
    requires texts { AllByRecursion IsTextLiteral literals.now }
    ensures { OnOk result (string_bytes out.new ≡ string_bytes out.old ++ spaced (list_tokens literals.now)) }
{
    match literals {
        [] => Ok(()),
        [first, rest @ ..] => {
            write_literal(out, first)?;
            for literal in rest {
                write_next(out, literal)?;
            }
            out.push(')')
        }
    }
}

// Writes a word and a space.
fn write_spaced(out: &mut String, word: &str) -> Result<(), AllocError>
    ensures { OnOk result (string_bytes out.new ≡ string_bytes out.old ++ (word.now ++ codes " ")) }
{
    out.push_str(word)?;
    out.push(' ')
}

// Writes the comparison of a column with a literal.
fn write_compare(
    out: &mut String,
    schema: &Schema,
    column: u8,
    op: Op,
    literal: &Literal,
) -> Result<(), AllocError>
    requires inside { column < length schema.now.columns }
    requires texts { IsTextLiteral literal.now }
    ensures { OnOk result (string_bytes out.new ≡ string_bytes out.old ++ printed schema.now.columns (compared column op literal.now)) }
{
    write_spaced(out, schema.name(column))?;
    write_spaced(out, op_text(op))?;
    write_literal(out, literal)
}

// Writes that a column is in a list of literals.
fn write_within(
    out: &mut String,
    schema: &Schema,
    column: u8,
    literals: &[Literal],
) -> Result<(), AllocError>
    requires inside { column < length schema.now.columns }
    requires some { has_literals literals.now ≡ true }
    requires texts { AllByRecursion IsTextLiteral literals.now }
    ensures { OnOk result (string_bytes out.new ≡ string_bytes out.old ++ printed schema.now.columns (among column literals.now)) }
{
    out.push_str(schema.name(column))?;
    out.push_str(" in (")?;
    write_literals(out, literals)
}

fn open(out: &mut String, wanted: bool) -> Result<(), AllocError>
    ensures { OnOk result (string_bytes out.new ≡ string_bytes out.old ++ cond wanted (codes "(") []) }
{
    if wanted { out.push('(') } else { Ok(()) }
}

fn close(out: &mut String, wanted: bool) -> Result<(), AllocError>
    ensures { OnOk result (string_bytes out.new ≡ string_bytes out.old ++ cond wanted (codes ")") []) }
{
    if wanted { out.push(')') } else { Ok(()) }
}

// Writes a word, and the bracket of the part after it if one is wanted.
fn lead(out: &mut String, word: &str, wanted: bool) -> Result<(), AllocError>
    ensures { OnOk result (string_bytes out.new ≡ (string_bytes out.old ++ word.now) ++ cond wanted (codes "(") []) }
{
    out.push_str(word)?;
    open(out, wanted)
}

// Writes the bracket that closes the part before a word, the word, and the bracket of the part after it, if they are
// wanted.
fn write_between(out: &mut String, closes: bool, word: &str, opens: bool) -> Result<(), AllocError>
    ensures { OnOk result (string_bytes out.new ≡ ((string_bytes out.old ++ cond closes (codes ")") []) ++ word.now) ++ cond opens (codes "(") []) }
{
    close(out, closes)?;
    lead(out, word, opens)
}

// Writes a predicate. Calls go as deep as its tree, which for one that was read is at most 512.
fn write_pred(out: &mut String, schema: &Schema, pred: &Pred) -> Result<(), AllocError>
    requires fitting { fits schema.now.columns (tree_of pred.now) ≡ true }
    requires texts { AreTexts (tree_of pred.now) }
    ensures { OnOk result (string_bytes out.new ≡ string_bytes out.old ++ printed schema.now.columns (tree_of pred.now)) }
{
    match pred {
        Pred::All => out.push_str("all"),
        Pred::Not(p) => {
            let inside = is_or_and(p);
            lead(out, "not ", inside)?;
            write_pred(out, schema, p)?;
            close(out, inside)
        }
        Pred::And(p, q) => {
            let (left, right) = (is_or(p), is_or_and(q));
            open(out, left)?;
            write_pred(out, schema, p)?;
            write_between(out, left, " and ", right)?;
            write_pred(out, schema, q)?;
            close(out, right)
        }
        Pred::Or(p, q) => {
            let right = is_or(q);
            write_pred(out, schema, p)?;
            lead(out, " or ", right)?;
            write_pred(out, schema, q)?;
            close(out, right)
        }
        Pred::Compare {
            column,
            op,
            literal,
        } => write_compare(out, schema, *column, *op, literal),
        Pred::Within { column, literals } => {
            write_within(out, schema, *column, literals.list.as_slice())
        }
    }
}

/// The text of a predicate: its tokens with one space between two, but none after an opening bracket and none before a
/// closing bracket or a comma, and brackets only where a part needs them.
pub fn print_where(alloc: Global, schema: &Schema, pred: &Pred) -> Result<String, NoMemory>
    requires fitting { fits schema.now.columns (tree_of pred.now) ≡ true }
    requires texts { AreTexts (tree_of pred.now) }
    ensures exact { IfOk result (λ s. string_bytes s ≡ printed schema.now.columns (tree_of pred.now)) }
    // If the predicate is what some text means, it is what the printed text means too.
    ensures again { (text : List ℕ) → Means schema.now.columns text (tree_of pred.now)
        → IfOk result (λ s. Means schema.now.columns (string_bytes s) (tree_of pred.now)) }
    // The printed text has at most 511 bytes more than any text that means the predicate.
    ensures short { (text : List ℕ) → Means schema.now.columns text (tree_of pred.now)
        → IfOk result (λ s. length (string_bytes s) ≤ length text + 511) }
{
    let mut out = String::new(alloc);
    match write_pred(&mut out, schema, pred) {
        Ok(()) => Ok(out),
        Err(_) => Err(NoMemory),
    }
}
