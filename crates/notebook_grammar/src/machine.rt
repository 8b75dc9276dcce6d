//! The machine that reads lexemes by the table: a stack of what is to come, and one lexeme ahead.
ghost use Rattle.std.specs.Prelude.{◌≡◌, ◌≤◌, IfSome, MatchResult, slice_get};
ghost use Rattle.ll1_grammar.specs.Grammar.{Derives};
ghost use Rattle.notebook_grammar.specs.Language.{language, start_of};
ghost use Rattle.notebook_grammar.specs.Limits as limit;
ghost use Rattle.notebook_grammar.specs.Machine as spec;

use crate::action::{Action, ExprAction};
use crate::lexeme::Lexeme;
use crate::row::Part;
use crate::rule::Rule;
use crate::start::{Start, first};
use crate::table::{alternative, otherwise};
use ll1_grammar::{Item, Step, fits};
use std::alloc::{AllocError, AllocFailed, Global};
use value_types::{ListOf, NoMemory};

/// How many levels may be open at a place.
const ROOM: u8 = 64;

/// How many tokens an expression that stands in no other may have.
const MOST: u32 = 1000;

/// What is left of a right-hand side, and the room of its rules.
#[derive(Clone, Copy, Drop)]
pub struct Frame {
    pub rest: &'static [Part],
    pub room: u8,
}

/// Steps in the order of a leftmost derivation: tokens taken, and actions passed.
pub type Steps = ListOf<Step<Lexeme, Action>>;

/// Why the machine stops: at a lexeme, or at the end where `At` is their number.
#[derive(Clone, Copy, Drop)]
pub enum Stopped {
    At(usize),
    NoMemory,
}

impl From<NoMemory> for Stopped {
    ghost use Rattle.std.specs.Prelude.{◌≡◌};
    ghost use Rattle.notebook_grammar.specs.declared.machine.Stopped.TheVariants as stopped;

    ghost from_gives = { λ _ e. e ≡ stopped.NoMemory };

    fn from(_none: NoMemory) -> Stopped {
        Stopped::NoMemory
    }
}

impl From<AllocError> for Stopped {
    ghost use Rattle.std.specs.Prelude.{◌≡◌};
    ghost use Rattle.notebook_grammar.specs.declared.machine.Stopped.TheVariants as stopped;

    ghost from_gives = { λ _ e. e ≡ stopped.NoMemory };

    fn from(_error: AllocError) -> Stopped {
        Stopped::NoMemory
    }
}

impl<T: Drop> From<AllocFailed<T>> for Stopped {
    ghost use Rattle.std.specs.Prelude.{◌≡◌};
    ghost use Rattle.notebook_grammar.specs.declared.machine.Stopped.TheVariants as stopped;

    ghost from_gives = { λ _ e. e ≡ stopped.NoMemory };

    fn from(_failed: AllocFailed<T>) -> Stopped {
        Stopped::NoMemory
    }
}

/// What a rule does at a lexeme, or at the end.
#[derive(Clone, Copy, Drop)]
pub enum Choice {
    /// The lexeme is taken, and these items come after it.
    Take(Lexeme, &'static [Part]),
    /// These items stand for the rule.
    Go(&'static [Part]),
    Stop,
}

fn choose(rule: Rule, room: u8, next: Option<Lexeme>) -> Choice
    ensures { spec.IsChoice rule room next result }
{
    if let Some(lexeme) = next {
        if let Some(items) = alternative(rule, lexeme.kind) {
            if fits(room, items) {
                return Choice::Take(lexeme, items);
            }
        }
    }
    if let Some(items) = otherwise(rule) {
        if fits(room, items) {
            return Choice::Go(items);
        }
    }
    Choice::Stop
}

/// What comes next.
#[derive(Clone, Copy, Drop)]
pub enum Next {
    End,
    Done(Action),
    Goal(Rule, u8),
}

fn take_next(stack: &mut Vec<Frame>) -> Result<Next, Stopped>
    ensures { spec.Moves stack.old.items stack.new.items result }
{
    while let Some(frame) = stack.pop() {
        if let Some((first, rest)) = frame.rest.split_first() {
            stack.push(Frame {
                rest,
                room: frame.room,
            })?;
            return Ok(match *first {
                Item::Here(rule) => Next::Goal(rule, frame.room),
                Item::Inside(rule) => Next::Goal(rule, frame.room.saturating_sub(1)),
                Item::Do(action) => Next::Done(action),
            });
        }
    }
    Ok(Next::End)
}

fn lexeme_at(lexemes: &[Lexeme], at: usize) -> Option<Lexeme>
    ensures { result ≡ slice_get lexemes.now at }
{
    lexemes.get(at).copied()
}

/// The number of tokens of the open expression after an action; none outside of expressions.
fn after(action: Action, count: Option<u32>) -> Option<u32>
    ensures { result ≡ limit.after action count }
{
    match action {
        Action::Expr(ExprAction::Begin) => Some(0),
        Action::Expr(ExprAction::End) => None,
        _ => count,
    }
}

fn is_full(count: Option<u32>) -> bool
    ensures { result ≡ limit.is_full count }
{
    count == Some(MOST)
}

fn more(count: Option<u32>) -> Option<u32>
    requires { IfSome count (λ n. n ≤ 1000) }
    ensures { result ≡ limit.more count }
{
    match count {
        Some(n) => Some(n + 1),
        None => None,
    }
}

/// The steps of the derivation of these lexemes.
pub fn run(alloc: Global, lexemes: &[Lexeme], start: Start) -> Result<Steps, Stopped>
    ensures { limit.IsRun start lexemes.now result }
{
    let mut steps = ListOf::new(alloc)?;
    let mut stack = Vec::new(alloc);
    let mut at = 0;
    let mut count = None;
    stack.push(Frame {
        rest: first(start),
        room: ROOM,
    })?;
    loop {
        match take_next(&mut stack)? {
            Next::End if at < lexemes.len() => return Err(Stopped::At(at)),
            Next::End => return Ok(steps),
            Next::Done(action) => {
                steps.push(alloc, Step::Did(action))?;
                count = after(action, count);
            }
            Next::Goal(rule, room) => match choose(rule, room, lexeme_at(lexemes, at)) {
                Choice::Take(lexeme, items) => {
                    if is_full(count) {
                        return Err(Stopped::At(at));
                    }
                    count = more(count);
                    steps.push(alloc, Step::Took(lexeme))?;
                    at += 1;
                    stack.push(Frame { rest: items, room })?;
                }
                Choice::Go(items) => stack.push(Frame { rest: items, room })?,
                Choice::Stop => return Err(Stopped::At(at)),
            },
        }
    }
}
