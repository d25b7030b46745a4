// Rules of subscriptions. Contracts see a filter and an action as the texts that spell them.
ghost use Rattle.std.specs.Prelude.{◌≡◌, List, ℕ, Ok};
ghost use Rattle.sb_model.specs.Expressions.{term_of, changes_of};
ghost use Rattle.sb_model.specs.Texts.{filter_in, action_in};

use sb_model::{Action, Filter, Message, Name, Property, Rows, SystemText, Text};
use std::marker::Model;

/// What a correlation filter asks: each of these properties is there with this value.
#[derive(Clone, Drop)]
pub struct Conditions {
    /// By code of the name, none twice.
    pub sys: Rows<SystemText>,
    /// By name in byte order, none twice.
    pub props: Rows<Property>,
}

/// A filter's text, and the tree that it spells.
#[derive(Drop)]
pub struct Condition {
    text: Text,
    tree: Filter,
}

impl Model for Condition {
    ghost Value = { List ℕ };

    ghost view = { λ c. c.text };

    ghost invariant = { λ c. filter_in c.text ≡ Ok (term_of c.tree) };
}

impl Condition {
    /// A filter as it is spelled, with the tree that its text is read as.
    pub fn new(text: Text, tree: Filter) -> Self
        requires { filter_in text ≡ Ok (term_of tree) }
        ensures { result ≡ text }
    {
        Condition { text, tree }
    }

    pub fn text(&self) -> &Text
        ensures { result.now ≡ self.now }
    {
        &self.text
    }

    pub fn tree(&self) -> &Filter
        ensures { filter_in self.now ≡ Ok (term_of result.now) }
    {
        &self.tree
    }
}

/// An action's text, and the statements that it spells.
#[derive(Drop)]
pub struct Effect {
    text: Text,
    statements: Action,
}

impl Model for Effect {
    ghost Value = { List ℕ };

    ghost view = { λ e. e.text };

    ghost invariant = { λ e. action_in e.text ≡ Ok (changes_of e.statements) };
}

impl Effect {
    /// An action as it is spelled, with the statements that its text is read as.
    pub fn new(text: Text, statements: Action) -> Self
        requires { action_in text ≡ Ok (changes_of statements) }
        ensures { result ≡ text }
    {
        Effect { text, statements }
    }

    pub fn text(&self) -> &Text
        ensures { result.now ≡ self.now }
    {
        &self.text
    }

    pub fn statements(&self) -> &Action
        ensures { action_in self.now ≡ Ok (changes_of result.now) }
    {
        &self.statements
    }
}

/// Which messages a rule is for.
#[derive(Drop)]
pub enum RuleFilter {
    Sql(Condition),
    Correlation(Conditions),
}

#[derive(Drop)]
pub struct Rule {
    pub name: Name,
    pub filter: RuleFilter,
    /// What it changes in a message.
    pub action: Option<Effect>,
}

/// What a subscription takes of a message.
#[derive(Drop)]
pub enum Outcome {
    Copies(Rows<Message>),
    /// A rule failed: one copy is dead-lettered.
    Dead,
    /// A rule failed, and nothing is taken.
    Dropped,
}
