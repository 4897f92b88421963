//! The tree as it grows, token by token. What is open is kept in a list: no call goes deeper if brackets do.
ghost use Rattle.std.specs.Prelude.{◌≡◌, [], ◌∷◌, ◌++◌, ◌<◌, length, List, Some, None, OnOk, true};
ghost use Rattle.schema_json.specs.Columns.{Column, role_at};
ghost use Rattle.predicate_lang.specs.Trees.{tree_of, negation, is_of_role, has_operator};
ghost use Rattle.predicate_lang.specs.Machine.{a_not, a_bracket, build, start, built, whole, closed, add_and, add_or, is_under_not, is_in_bracket, negated, without_nots, at_operand, at_name, at_operator, at_in, at_comma, at_literal, behind, has_room, public_role};
ghost use Rattle.predicate_lang.specs.Building.{Puts, Goes, Makes, MakesTree, Finishes, build_of, build_at, stand_of, part_of, frame_of, frames_of};
ghost use Rattle.predicate_lang.specs.declared.building.Spot.TheVariants.{Operand};

use crate::tokens::Token;
use crate::trees::{Literal, Literals, Op, Pred, WhereFault};
use schema_json::{Role, Schema};
use std::alloc::Global;
use std::mem;

// How many `not` and brackets may be open.
const MOST_OPEN: usize = 64;

/// A `not` that waits for its operand, or an open bracket with what stands before it.
#[derive(Drop)]
pub(crate) enum Opened {
    Not,
    Bracket {
        ors: Option<Box<Pred>>,
        ands: Option<Box<Pred>>,
    },
}

/// Where the next token stands.
#[derive(Drop)]
pub(crate) enum Spot {
    Operand,
    Name(u8),
    Operator(u8, Op),
    In(u8),
    Comma(u8),
    Literal(u8),
    Whole(Box<Pred>),
}

/// What the reader keeps between two tokens: what is open, the innermost last, what stands before the operand, the literals
/// of a list that isn't closed, and where the next token stands.
#[derive(Drop)]
pub(crate) struct State {
    pub opened: Vec<Opened>,
    pub ors: Option<Box<Pred>>,
    pub ands: Option<Box<Pred>>,
    pub literals: Vec<Literal>,
    pub spot: Spot,
}

fn and_of(alloc: Global, ands: Option<Box<Pred>>, p: Box<Pred>) -> Result<Box<Pred>, WhereFault>
    ensures { MakesTree (add_and (part_of ands) (tree_of p.value)) result }
{
    match ands {
        None => Ok(p),
        Some(c) => Ok(Box::new(alloc, Pred::And(c, p))?),
    }
}

fn or_of(alloc: Global, ors: Option<Box<Pred>>, p: Box<Pred>) -> Result<Box<Pred>, WhereFault>
    ensures { MakesTree (add_or (part_of ors) (tree_of p.value)) result }
{
    match ors {
        None => Ok(p),
        Some(d) => Ok(Box::new(alloc, Pred::Or(d, p))?),
    }
}

fn not_of(alloc: Global, p: Box<Pred>) -> Result<Box<Pred>, WhereFault>
    ensures { MakesTree (negation (tree_of p.value)) result }
{
    Ok(Box::new(alloc, Pred::Not(p))?)
}

// Puts a part in place of another.
fn set_part(part: &mut Option<Box<Pred>>, other: Option<Box<Pred>>)
    ensures { part.new ≡ other }
{
    *part = other;
}

// Whether one `not` or bracket more may be open.
fn has_room(opened: &[Opened]) -> bool
    ensures { result ≡ has_room (frames_of opened.now) }
{
    opened.len() < MOST_OPEN
}

// Whether a `not` stands right before the operand.
#[tactic(auto, using(crate::proofs::Frames::frames_of_last))]
fn is_under_not(opened: &[Opened]) -> bool
    ensures { result ≡ is_under_not (frames_of opened.now) }
{
    match opened.last() {
        Some(Opened::Not) => true,
        Some(Opened::Bracket { .. }) => false,
        None => false,
    }
}

// Ends the `not` that stands right before the operand.
#[tactic(auto, using(crate::proofs::Frames::frames_under_not))]
fn end_not(opened: &mut Vec<Opened>)
    requires { is_under_not (frames_of opened.old.items) ≡ true }
    ensures frames { frames_of opened.old.items ≡ a_not ∷ frames_of opened.new.items }
    ensures fewer { length opened.new.items < length opened.old.items }
{
    let rest = opened.len().saturating_sub(1);
    opened.truncate(rest);
}

// The operand under each `not` right before it. These end there.
fn negate(
    alloc: Global,
    opened: &mut Vec<Opened>,
    operand: Box<Pred>,
) -> Result<Box<Pred>, WhereFault>
    ensures tree { MakesTree (negated (frames_of opened.old.items) (tree_of operand.value)) result }
    ensures rest { OnOk result (frames_of opened.new.items ≡ without_nots (frames_of opened.old.items)) }
{
    let mut p = operand;
    'nots: while is_under_not(opened) {
        end_not(opened);
        p = not_of(alloc, p)?;
    }
    Ok(p)
}

fn role_of(schema: &Schema, column: u8) -> Option<Role>
    ensures { result ≡ role_at schema.now.columns column }
{
    if column < schema.count() {
        Some(schema.role(column))
    } else {
        None
    }
}

fn is_public(role: Option<Role>) -> bool
    ensures { result ≡ public_role role }
{
    match role {
        Some(role) => !role.is_secret() && !role.is_count(),
        None => false,
    }
}

fn takes_operator(role: Option<Role>, op: Op) -> bool
    ensures { result ≡ has_operator role op }
{
    match role {
        Some(Role::Number) => true,
        Some(Role::Text) => match op {
            Op::Eq => true,
            Op::Ne => true,
            Op::Lt => false,
            Op::Le => false,
            Op::Gt => false,
            Op::Ge => false,
        },
        Some(Role::Count) => false,
        Some(Role::Sum) => false,
        Some(Role::Max) => false,
        Some(Role::Min) => false,
        None => false,
    }
}

fn takes_literal(role: Option<Role>, literal: &Literal) -> bool
    ensures { result ≡ is_of_role role literal.now }
{
    match role {
        Some(Role::Number) => matches!(literal, Literal::Number(_)),
        Some(Role::Text) => matches!(literal, Literal::Text(_)),
        Some(Role::Count) => false,
        Some(Role::Sum) => false,
        Some(Role::Max) => false,
        Some(Role::Min) => false,
        None => false,
    }
}

impl State {
    pub(crate) fn new(alloc: Global) -> State
        ensures { build_of result ≡ start }
    {
        State {
            opened: Vec::new(alloc),
            ors: None,
            ands: None,
            literals: Vec::new(alloc),
            spot: Spot::Operand,
        }
    }

    // Sets where the next token stands.
    fn go_to(&mut self, spot: Spot)
        ensures place { build_of self.new ≡ build_at self.old (stand_of spot self.old.literals.items) }
        ensures opened { self.new.opened ≡ self.old.opened }
        ensures ors { self.new.ors ≡ self.old.ors }
        ensures ands { self.new.ands ≡ self.old.ands }
        ensures spot { self.new.spot ≡ spot }
    {
        self.spot = spot;
    }

    // Waits for an operand after these parts.
    fn wait_after(&mut self, ors: Option<Box<Pred>>, ands: Option<Box<Pred>>)
        ensures opened { self.new.opened ≡ self.old.opened }
        ensures ors { self.new.ors ≡ ors }
        ensures ands { self.new.ands ≡ ands }
        ensures spot { self.new.spot ≡ Operand }
    {
        set_part(&mut self.ors, ors);
        set_part(&mut self.ands, ands);
        self.go_to(Spot::Operand);
    }

    // Puts a whole operand after what stands before it.
    fn end_operand(&mut self, alloc: Global, operand: Box<Pred>) -> Result<(), WhereFault>
        ensures { Makes (whole (frames_of self.old.opened.items) (part_of self.old.ors) (part_of self.old.ands) (tree_of operand.value)) result (λ _. build_of self.new) }
    {
        let p = negate(alloc, &mut self.opened, operand)?;
        let p = and_of(alloc, self.ands.take(), p)?;
        self.go_to(Spot::Whole(p));
        Ok(())
    }

    // Puts an operand that isn't in a bracket.
    fn put_operand(&mut self, alloc: Global, operand: Pred) -> Result<(), WhereFault>
        ensures { Makes (whole (frames_of self.old.opened.items) (part_of self.old.ors) (part_of self.old.ands) (tree_of operand)) result (λ _. build_of self.new) }
    {
        let operand = Box::new(alloc, operand)?;
        self.end_operand(alloc, operand)
    }

    // Opens one `not` or bracket more.
    fn open(&mut self, opening: Opened) -> Result<(), WhereFault>
        ensures { Makes (build (frame_of opening ∷ frames_of self.old.opened.items) (part_of self.old.ors) (part_of self.old.ands) at_operand) result (λ _. build_of self.new) }
    {
        self.opened.push(opening)?;
        self.go_to(Spot::Operand);
        Ok(())
    }

    fn open_not(&mut self, at: u32) -> Result<(), WhereFault>
        ensures { Goes (has_room (frames_of self.old.opened.items)) (build (a_not ∷ frames_of self.old.opened.items) (part_of self.old.ors) (part_of self.old.ands) at_operand) at result (λ _. build_of self.new) }
    {
        if !has_room(self.opened.as_slice()) {
            return Err(WhereFault::Bad { at });
        }
        self.open(Opened::Not)
    }

    fn open_bracket(&mut self, at: u32) -> Result<(), WhereFault>
        ensures { Goes (has_room (frames_of self.old.opened.items)) (build (a_bracket (part_of self.old.ors) (part_of self.old.ands) ∷ frames_of self.old.opened.items) None None at_operand) at result (λ _. build_of self.new) }
    {
        if has_room(self.opened.as_slice()) {
            let ors = self.ors.take();
            let ands = self.ands.take();
            self.open(Opened::Bracket { ors, ands })
        } else {
            Err(WhereFault::Bad { at })
        }
    }

    // Closes the innermost bracket.
    #[tactic(auto, using(crate::proofs::Frames::frames_of_push))]
    fn close(&mut self, alloc: Global, inner: Box<Pred>, at: u32) -> Result<(), WhereFault>
        ensures { Goes (is_in_bracket (frames_of self.old.opened.items)) (closed (frames_of self.old.opened.items) (part_of self.old.ors) (tree_of inner.value)) at result (λ _. build_of self.new) }
    {
        match self.opened.pop() {
            Some(Opened::Bracket { ors, ands }) => {
                let inner_ors = self.ors.take();
                self.wait_after(ors, ands);
                let p = or_of(alloc, inner_ors, inner)?;
                self.end_operand(alloc, p)
            }
            _ => Err(WhereFault::Bad { at }),
        }
    }

    fn on_operand(
        &mut self,
        alloc: Global,
        schema: &Schema,
        token: Token,
        at: u32,
    ) -> Result<(), WhereFault>
        ensures { Puts schema.now.columns (build_at self.old at_operand) token at result (λ _. build_of self.new) }
    {
        match token {
            Token::Not => self.open_not(at),
            Token::OpenBracket => self.open_bracket(at),
            Token::All => self.put_operand(alloc, Pred::All),
            Token::Column(Some(column)) => {
                if is_public(role_of(schema, column)) {
                    self.go_to(Spot::Name(column));
                    Ok(())
                } else {
                    Err(WhereFault::Bad { at })
                }
            }
            _ => Err(WhereFault::Bad { at }),
        }
    }

    fn on_name(
        &mut self,
        schema: &Schema,
        column: u8,
        token: Token,
        at: u32,
    ) -> Result<(), WhereFault>
        ensures { Puts schema.now.columns (build_at self.old (at_name column)) token at result (λ _. build_of self.new) }
    {
        match token {
            Token::In => {
                self.go_to(Spot::In(column));
                Ok(())
            }
            Token::Operator(op) => {
                if takes_operator(role_of(schema, column), op) {
                    self.go_to(Spot::Operator(column, op));
                    Ok(())
                } else {
                    Err(WhereFault::Bad { at })
                }
            }
            _ => Err(WhereFault::Bad { at }),
        }
    }

    fn on_operator(
        &mut self,
        alloc: Global,
        schema: &Schema,
        column: u8,
        op: Op,
        token: Token,
        at: u32,
    ) -> Result<(), WhereFault>
        ensures { Puts schema.now.columns (build_at self.old (at_operator column op)) token at result (λ _. build_of self.new) }
    {
        match token {
            Token::Value(literal) => {
                if takes_literal(role_of(schema, column), &literal) {
                    let operand = Pred::Compare {
                        column,
                        op,
                        literal,
                    };
                    self.put_operand(alloc, operand)
                } else {
                    Err(WhereFault::Bad { at })
                }
            }
            _ => Err(WhereFault::Bad { at }),
        }
    }

    fn on_in(&mut self, alloc: Global, column: u8, token: Token, at: u32) -> Result<(), WhereFault>
        ensures { (columns : List Column) → Puts columns (build_at self.old (at_in column)) token at result (λ _. build_of self.new) }
    {
        match token {
            Token::OpenBracket => {
                self.literals = Vec::new(alloc);
                self.go_to(Spot::Comma(column));
                Ok(())
            }
            _ => Err(WhereFault::Bad { at }),
        }
    }

    // Adds a literal to those of the list that is open.
    fn add_literal(&mut self, column: u8, literal: Literal) -> Result<(), WhereFault>
        ensures { Makes (build_at self.old (at_literal column (self.old.literals.items ++ literal ∷ []))) result (λ _. build_of self.new) }
    {
        self.literals.push(literal)?;
        self.go_to(Spot::Literal(column));
        Ok(())
    }

    fn on_comma(
        &mut self,
        schema: &Schema,
        column: u8,
        token: Token,
        at: u32,
    ) -> Result<(), WhereFault>
        ensures { Puts schema.now.columns (build_at self.old (at_comma column self.old.literals.items)) token at result (λ _. build_of self.new) }
    {
        match token {
            Token::Value(literal) => {
                if takes_literal(role_of(schema, column), &literal) {
                    self.add_literal(column, literal)
                } else {
                    Err(WhereFault::Bad { at })
                }
            }
            _ => Err(WhereFault::Bad { at }),
        }
    }

    fn on_literal(
        &mut self,
        alloc: Global,
        column: u8,
        token: Token,
        at: u32,
    ) -> Result<(), WhereFault>
        ensures { (columns : List Column) → Puts columns (build_at self.old (at_literal column self.old.literals.items)) token at result (λ _. build_of self.new) }
    {
        match token {
            Token::Comma => {
                self.go_to(Spot::Comma(column));
                Ok(())
            }
            Token::CloseBracket => {
                let list = mem::replace(&mut self.literals, Vec::new(alloc));
                let literals = Literals { list };
                self.put_operand(alloc, Pred::Within { column, literals })
            }
            _ => Err(WhereFault::Bad { at }),
        }
    }

    // Waits for what stands after the `and`.
    fn go_on_and(&mut self, p: Box<Pred>)
        ensures { build_of self.new ≡ build (frames_of self.old.opened.items) (part_of self.old.ors) (Some (tree_of p.value)) at_operand }
    {
        set_part(&mut self.ands, Some(p));
        self.go_to(Spot::Operand);
    }

    // Waits for what stands after the `or`.
    fn go_on_or(&mut self, alloc: Global, p: Box<Pred>) -> Result<(), WhereFault>
        ensures { Makes (build (frames_of self.old.opened.items) (Some (add_or (part_of self.old.ors) (tree_of p.value))) None at_operand) result (λ _. build_of self.new) }
    {
        let ors = or_of(alloc, self.ors.take(), p)?;
        self.wait_after(Some(ors), None);
        Ok(())
    }

    fn on_whole(
        &mut self,
        alloc: Global,
        p: Box<Pred>,
        token: Token,
        at: u32,
    ) -> Result<(), WhereFault>
        ensures { (columns : List Column) → Puts columns (build_at self.old (behind (tree_of p.value))) token at result (λ _. build_of self.new) }
    {
        match token {
            Token::And => {
                self.go_on_and(p);
                Ok(())
            }
            Token::Or => self.go_on_or(alloc, p),
            Token::CloseBracket => self.close(alloc, p, at),
            _ => Err(WhereFault::Bad { at }),
        }
    }

    /// Takes one token more, or refuses it at its offset. After a refusal the state is of no use.
    pub(crate) fn put(
        &mut self,
        alloc: Global,
        schema: &Schema,
        token: Token,
        at: u32,
    ) -> Result<(), WhereFault>
        ensures { Puts schema.now.columns (build_of self.old) token at result (λ _. build_of self.new) }
    {
        match mem::replace(&mut self.spot, Spot::Operand) {
            Spot::Operand => self.on_operand(alloc, schema, token, at),
            Spot::Name(column) => self.on_name(schema, column, token, at),
            Spot::Operator(column, op) => self.on_operator(alloc, schema, column, op, token, at),
            Spot::In(column) => self.on_in(alloc, column, token, at),
            Spot::Comma(column) => self.on_comma(schema, column, token, at),
            Spot::Literal(column) => self.on_literal(alloc, column, token, at),
            Spot::Whole(p) => self.on_whole(alloc, p, token, at),
        }
    }

    /// The predicate, if nothing is open or wanting, and else a refusal at the end of the text.
    pub(crate) fn finish(&mut self, alloc: Global, end: u32) -> Result<Pred, WhereFault>
        ensures { Finishes (built (build_of self.old)) end result }
    {
        match mem::replace(&mut self.spot, Spot::Operand) {
            Spot::Whole(p) => {
                if self.opened.is_empty() {
                    let tree = or_of(alloc, self.ors.take(), p)?;
                    Ok(Box::into_inner(tree))
                } else {
                    Err(WhereFault::Bad { at: end })
                }
            }
            _ => Err(WhereFault::Bad { at: end }),
        }
    }
}
