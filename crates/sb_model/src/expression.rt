// Trees of the SQL filter language (Microsoft Learn, Service Bus, "SQL filter syntax").
ghost use Rattle.std.specs.Prelude.{◌≡◌, IfOk};
ghost use Rattle.sb_model.specs.Expressions.{term_of, terms_of, unary, binary, within, like, like_escape, first, later};

use crate::{Name, PropertyValue, Rows, Text};
use std::alloc::{AllocError, Global};

/// Which property of a message is meant.
#[derive(Drop)]
pub enum PropertyName {
    /// A user property: its name, folded to ASCII lower case.
    User(Name),
    /// A property of the service itself: its name as the text has it behind `sys.`.
    System(Text),
}

/// An operator on one operand.
#[derive(Clone, Copy, PartialEq, Eq, Drop)]
pub enum UnaryOperator {
    Plus,
    Minus,
    Not,
    IsNull,
    IsNotNull,
    /// `property(x)` or `p(x)`: the user property that the operand names.
    PropertyNamed,
}

/// An operator on two operands.
#[derive(Clone, Copy, PartialEq, Eq, Drop)]
pub enum BinaryOperator {
    Or,
    And,
    Equal,
    NotEqual,
    Greater,
    AtLeast,
    Less,
    AtMost,
    Add,
    Subtract,
    Multiply,
    Divide,
    Remainder,
}

/// An expression as a tree.
#[cycle(expression)]
#[derive(Drop)]
pub enum Expression {
    /// A whole number from 0 on, a text, `TRUE` or `FALSE`.
    Constant(PropertyValue),
    Property(PropertyName),
    /// `EXISTS(property)`.
    Exists(PropertyName),
    Unary(UnaryOperator, Box<Expression>),
    Binary(BinaryOperator, Box<Expression>, Box<Expression>),
    /// `x IN (..)`, and with `false` `x NOT IN (..)`.
    In(bool, Box<Expression>, Box<Items>),
    /// `x LIKE pattern`, and with `false` `x NOT LIKE pattern`.
    Like(bool, Box<Expression>, Box<Expression>),
    /// `x LIKE pattern ESCAPE character`, and with `false` `x NOT LIKE ..`.
    LikeEscape(bool, Box<Expression>, Box<Expression>, Box<Expression>),
}

/// What stands in parentheses behind `IN`: one expression or more.
#[cycle(expression)]
#[derive(Drop)]
pub enum Items {
    First(Box<Expression>),
    Later(Box<Items>, Box<Expression>),
}

/// A filter: the messages on which this comes to true.
pub type Filter = Expression;

/// One change that an action makes.
#[derive(Drop)]
pub enum Statement {
    Set(PropertyName, Expression),
    Remove(PropertyName),
}

/// An action: its statements, in order.
pub type Action = Rows<Statement>;

impl Expression {
    /// This operator on that operand.
    pub fn unary(
        alloc: Global,
        operator: UnaryOperator,
        operand: Expression,
    ) -> Result<Self, AllocError>
        ensures { IfOk result (λ x. term_of x ≡ unary operator (term_of operand)) }
    {
        Ok(Expression::Unary(operator, Box::new(alloc, operand)?))
    }

    /// This operator between these.
    pub fn binary(
        alloc: Global,
        operator: BinaryOperator,
        left: Expression,
        right: Expression,
    ) -> Result<Self, AllocError>
        ensures { IfOk result (λ x. term_of x ≡ binary operator (term_of left) (term_of right)) }
    {
        Ok(Expression::Binary(operator, Box::new(alloc, left)?, Box::new(alloc, right)?))
    }

    /// `left IN items`, or with `false` `left NOT IN items`.
    pub fn within(
        alloc: Global,
        affirmed: bool,
        left: Expression,
        items: Items,
    ) -> Result<Self, AllocError>
        ensures { IfOk result (λ x. term_of x ≡ within affirmed (term_of left) (terms_of items)) }
    {
        Ok(Expression::In(affirmed, Box::new(alloc, left)?, Box::new(alloc, items)?))
    }

    /// `left LIKE pattern`, or with `false` `left NOT LIKE pattern`.
    pub fn like(
        alloc: Global,
        affirmed: bool,
        left: Expression,
        pattern: Expression,
    ) -> Result<Self, AllocError>
        ensures { IfOk result (λ x. term_of x ≡ like affirmed (term_of left) (term_of pattern)) }
    {
        Ok(Expression::Like(affirmed, Box::new(alloc, left)?, Box::new(alloc, pattern)?))
    }

    /// `left LIKE pattern ESCAPE escape`, or with `false` `left NOT LIKE ..`.
    pub fn like_escape(
        alloc: Global,
        affirmed: bool,
        left: Expression,
        pattern: Expression,
        escape: Expression,
    ) -> Result<Self, AllocError>
        ensures { IfOk result (λ x. term_of x ≡ like_escape affirmed (term_of left) (term_of pattern) (term_of escape)) }
    {
        Ok(Expression::LikeEscape(
            affirmed,
            Box::new(alloc, left)?,
            Box::new(alloc, pattern)?,
            Box::new(alloc, escape)?,
        ))
    }
}

impl Items {
    /// This alone.
    pub fn first(alloc: Global, item: Expression) -> Result<Self, AllocError>
        ensures { IfOk result (λ xs. terms_of xs ≡ first (term_of item)) }
    {
        Ok(Items::First(Box::new(alloc, item)?))
    }

    /// These, and behind them that.
    pub fn later(alloc: Global, items: Items, item: Expression) -> Result<Self, AllocError>
        ensures { IfOk result (λ xs. terms_of xs ≡ later (terms_of items) (term_of item)) }
    {
        Ok(Items::Later(Box::new(alloc, items)?, Box::new(alloc, item)?))
    }
}
