// Whether two parts of acts are equal, in all their fields.
ghost use Rattle.std.specs.Prelude.{◌≡◌, ◌==◌, ◌&&◌, not, bytes_eq};
ghost use Rattle.std.specs.Ordering.{int_eq};
ghost use Rattle.sb_machine.specs.Names as name;
ghost use Rattle.sb_machine.specs.Same as spec;
ghost use Rattle.sb_machine.specs.Selection.{same_value};
ghost use Rattle.sb_machine.specs.declared.look.Look.TheVariants as look;
ghost use Rattle.sb_model.specs.SystemNames.{system_code};

use sb_machine::{Conditions, Description, FilterText, How, Look, Mode, Part, Path, Token, Which};
use sb_model::{Message, Name, Property, PropertyValue, Rows, SystemText, Text};

// ---- plain values

pub fn is_same_text(a: &Text, b: &Text) -> bool
    ensures { result ≡ bytes_eq a.now b.now }
{
    a.as_bytes() == b.as_bytes()
}

fn is_same_bytes(a: &[u8], b: &[u8]) -> bool
    ensures { result ≡ bytes_eq a.now b.now }
{
    a == b
}

fn is_same_bool(a: bool, b: bool) -> bool
    ensures { result ≡ spec.same_bool a b }
{
    a == b
}

// ---- options

pub fn is_same_text_option(a: &Option<Text>, b: &Option<Text>) -> bool
    ensures { result ≡ name.is_same_option a.now b.now }
{
    match (a, b) {
        (None, None) => true,
        (Some(a), Some(b)) => is_same_text(a, b),
        _ => false,
    }
}

pub fn is_same_bytes_option(a: &Option<Rows<u8>>, b: &Option<Rows<u8>>) -> bool
    ensures { result ≡ name.is_same_option a.now b.now }
{
    match (a, b) {
        (None, None) => true,
        (Some(a), Some(b)) => is_same_bytes(a.as_slice(), b.as_slice()),
        _ => false,
    }
}

pub fn is_same_number_option(a: Option<u64>, b: Option<u64>) -> bool
    ensures { result ≡ spec.same_option spec.same_nat a b }
{
    match (a, b) {
        (None, None) => true,
        (Some(a), Some(b)) => a == b,
        _ => false,
    }
}

pub fn is_same_token_option(a: Option<Token>, b: Option<Token>) -> bool
    ensures { result ≡ spec.same_option spec.same_token a b }
{
    match (a, b) {
        (None, None) => true,
        (Some(a), Some(b)) => is_same_token(a, b),
        _ => false,
    }
}

// ---- addresses and tokens

fn is_same_part(a: Part, b: Part) -> bool
    ensures { result ≡ name.is_same_part a b }
{
    match (a, b) {
        (Part::Main, Part::Main) => true,
        (Part::Dead, Part::Dead) => true,
        (Part::Transfer, Part::Transfer) => true,
        _ => false,
    }
}

fn is_same_entity(a: &Path, b: &Path) -> bool
    ensures { result ≡ name.is_same_entity a.now b.now }
{
    is_same_text(&a.name, &b.name) && is_same_text_option(&a.subscription, &b.subscription)
}

pub fn is_same_path(a: &Path, b: &Path) -> bool
    ensures { result ≡ spec.same_path a.now b.now }
{
    is_same_entity(a, b) && is_same_part(a.part, b.part)
}

pub fn is_same_token(a: Token, b: Token) -> bool
    ensures { result ≡ spec.same_token a b }
{
    a.salt == b.salt && a.lock == b.lock
}

pub fn is_same_which(a: &Which, b: &Which) -> bool
    ensures { result ≡ spec.same_which a.now b.now }
{
    match (a, b) {
        (Which::Number(a), Which::Number(b)) => *a == *b,
        (Which::Id(a), Which::Id(b)) => is_same_text(a, b),
        _ => false,
    }
}

pub fn is_same_mode(a: Mode, b: Mode) -> bool
    ensures { result ≡ spec.same_mode a b }
{
    match (a, b) {
        (Mode::Lock, Mode::Lock) => true,
        (Mode::Delete, Mode::Delete) => true,
        _ => false,
    }
}

pub fn is_same_how(a: &How, b: &How) -> bool
    ensures { result ≡ spec.same_how a.now b.now }
{
    match (a, b) {
        (How::Complete, How::Complete) => true,
        (How::Abandon, How::Abandon) => true,
        (How::Defer, How::Defer) => true,
        (
            How::DeadLetter {
                reason: a,
                description: c,
            },
            How::DeadLetter {
                reason: b,
                description: d,
            },
        ) => is_same_text_option(a, b) && is_same_text_option(c, d),
        _ => false,
    }
}

// ---- messages

fn is_same_value(a: &PropertyValue, b: &PropertyValue) -> bool
    ensures { result ≡ same_value a.now b.now }
{
    match (a, b) {
        (PropertyValue::Int(a), PropertyValue::Int(b)) => *a == *b,
        (PropertyValue::Text(a), PropertyValue::Text(b)) => is_same_text(a, b),
        (PropertyValue::Bool(a), PropertyValue::Bool(b)) => *a == *b,
        _ => false,
    }
}

fn is_same_system_text(a: &SystemText, b: &SystemText) -> bool
    ensures { result ≡ spec.same_text a.now b.now }
{
    a.name.code() == b.name.code() && is_same_text(&a.text, &b.text)
}

fn is_same_property(a: &Property, b: &Property) -> bool
    ensures { result ≡ spec.same_property a.now b.now }
{
    is_same_text(&a.name, &b.name) && is_same_value(&a.value, &b.value)
}

fn are_same_texts(a: &[SystemText], b: &[SystemText]) -> bool
    ensures { result ≡ spec.same_list spec.same_text a.now b.now }
{
    if a.len() != b.len() {
        return false;
    }
    for place in 0..a.len() {
        if !is_same_system_text(&a[place], &b[place]) {
            return false;
        }
    }
    true
}

fn are_same_properties(a: &[Property], b: &[Property]) -> bool
    ensures { result ≡ spec.same_list spec.same_property a.now b.now }
{
    if a.len() != b.len() {
        return false;
    }
    for place in 0..a.len() {
        if !is_same_property(&a[place], &b[place]) {
            return false;
        }
    }
    true
}

fn is_same_message(a: &Message, b: &Message) -> bool
    ensures { result ≡ spec.same_message a.now b.now }
{
    is_same_bytes(a.body.as_slice(), b.body.as_slice())
        && are_same_texts(a.sys.as_slice(), b.sys.as_slice())
        && are_same_properties(a.props.as_slice(), b.props.as_slice())
        && is_same_number_option(a.ttl, b.ttl)
        && is_same_number_option(a.schedule, b.schedule)
}

fn are_same_in(a: &[Message], b: &[Message]) -> bool
    ensures { result ≡ spec.same_list spec.same_message a.now b.now }
{
    if a.len() != b.len() {
        return false;
    }
    for place in 0..a.len() {
        if !is_same_message(&a[place], &b[place]) {
            return false;
        }
    }
    true
}

pub fn are_same_messages(a: &Rows<Message>, b: &Rows<Message>) -> bool
    ensures { result ≡ spec.same_list spec.same_message a.now b.now }
{
    are_same_in(a.as_slice(), b.as_slice())
}

// ---- entities and rules

pub fn is_same_description(a: &Description, b: &Description) -> bool
    ensures { result ≡ spec.same_description a.now b.now }
{
    a.lock == b.lock
        && is_same_number_option(a.ttl, b.ttl)
        && a.max_delivery == b.max_delivery
        && is_same_number_option(a.window, b.window)
        && is_same_bool(a.requires_session, b.requires_session)
        && is_same_bool(a.dead_on_expiry, b.dead_on_expiry)
        && is_same_bool(a.dead_on_fault, b.dead_on_fault)
        && is_same_text_option(&a.forward_to, &b.forward_to)
        && is_same_text_option(&a.forward_dead_to, &b.forward_dead_to)
}

fn is_same_conditions(a: &Conditions, b: &Conditions) -> bool
    ensures { result ≡ spec.same_conditions a.now b.now }
{
    are_same_texts(a.sys.as_slice(), b.sys.as_slice())
        && are_same_properties(a.props.as_slice(), b.props.as_slice())
}

pub fn is_same_filter(a: &FilterText, b: &FilterText) -> bool
    ensures { result ≡ spec.same_filter a.now b.now }
{
    match (a, b) {
        (FilterText::Sql(a), FilterText::Sql(b)) => is_same_text(a, b),
        (FilterText::Correlation(a), FilterText::Correlation(b)) => is_same_conditions(a, b),
        _ => false,
    }
}

// ---- looks

fn is_same_path_option(a: &Option<Path>, b: &Option<Path>) -> bool
    ensures { result ≡ spec.same_option spec.same_path a.now b.now }
{
    match (a, b) {
        (None, None) => true,
        (Some(a), Some(b)) => is_same_path(a, b),
        _ => false,
    }
}

fn is_same_list(other: &Look, prefix: &Option<Name>, after: &Option<Path>, count: u64) -> bool
    ensures { result ≡ spec.same_look (look.Entities prefix.now after.now count) other.now }
{
    match other {
        Look::Entities {
            prefix: own_prefix,
            after: own_after,
            count: own_count,
        } => is_same_text_option(prefix, own_prefix)
            && is_same_path_option(after, own_after)
            && count == *own_count,
        _ => false,
    }
}

fn is_same_entity_look(other: &Look, path: &Path) -> bool
    ensures { result ≡ spec.same_look (look.Entity path.now) other.now }
{
    match other {
        Look::Entity { path: own_path } => is_same_path(path, own_path),
        _ => false,
    }
}

fn is_same_sessions(other: &Look, path: &Path, after: &Option<Text>, count: u64) -> bool
    ensures { result ≡ spec.same_look (look.Sessions path.now after.now count) other.now }
{
    match other {
        Look::Sessions {
            path: own_path,
            after: own_after,
            count: own_count,
        } => is_same_path(path, own_path)
            && is_same_text_option(after, own_after)
            && count == *own_count,
        _ => false,
    }
}

fn is_transactions(other: &Look) -> bool
    ensures { result ≡ spec.same_look look.Transactions other.now }
{
    match other {
        Look::Transactions => true,
        _ => false,
    }
}

fn is_same_clients(other: &Look, after: &Option<Text>, count: u64) -> bool
    ensures { result ≡ spec.same_look (look.Clients after.now count) other.now }
{
    match other {
        Look::Clients {
            after: own_after,
            count: own_count,
        } => is_same_text_option(after, own_after) && count == *own_count,
        _ => false,
    }
}

pub fn is_same_look(a: &Look, b: &Look) -> bool
    ensures { result ≡ spec.same_look a.now b.now }
{
    match a {
        Look::Entities {
            prefix,
            after,
            count,
        } => is_same_list(b, prefix, after, *count),
        Look::Entity { path } => is_same_entity_look(b, path),
        Look::Sessions { path, after, count } => is_same_sessions(b, path, after, *count),
        Look::Transactions => is_transactions(b),
        Look::Clients { after, count } => is_same_clients(b, after, *count),
    }
}
