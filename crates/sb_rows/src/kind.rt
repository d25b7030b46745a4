// The kinds of tables, each with a folder of its own under `data/`.
use crate::actions::Actions;
use crate::conversations::try_conversation;
use crate::filters::Filters;
use crate::journals::Journals;
use crate::messages::Messages;
use crate::operators::Operators;
use crate::outcome::{Outcome, try_rows};
use crate::refusals::Refusals;
use crate::requests::Requests;
use crate::scripts::try_script;
use crate::table::Case;
use crate::texts::Texts;
use anyhow::Result;
use std::alloc::Global;

#[derive(Clone, Copy)]
pub enum Kind {
    Texts,
    Filters,
    Operators,
    Actions,
    Messages,
    Requests,
    Refusals,
    Conversations,
    Scripts,
}

impl Kind {
    /// All kinds, in the order in which they are tried.
    pub const ALL: [Kind; 9] = [
        Kind::Texts,
        Kind::Filters,
        Kind::Operators,
        Kind::Actions,
        Kind::Messages,
        Kind::Requests,
        Kind::Refusals,
        Kind::Conversations,
        Kind::Scripts,
    ];

    /// The folder of its tables.
    pub fn folder(self) -> &'static str {
        match self {
            Kind::Texts => "texts",
            Kind::Filters => "filters",
            Kind::Operators => "operators",
            Kind::Actions => "actions",
            Kind::Messages => "messages",
            Kind::Requests => "requests",
            Kind::Refusals => "refusals",
            Kind::Conversations => "conversations",
            Kind::Scripts => "scripts",
        }
    }

    /// Tries a case of one of its tables; the journals are what the cases before it left.
    pub fn try_case(
        self,
        alloc: Global,
        case: &Case<'_>,
        journals: &mut Journals,
    ) -> Result<Outcome> {
        match self {
            Kind::Texts => try_rows(alloc, case, Texts::new()),
            Kind::Filters => try_rows(alloc, case, Filters::new(alloc)?),
            Kind::Operators => try_rows(alloc, case, Operators::new(alloc)?),
            Kind::Actions => try_rows(alloc, case, Actions::new(alloc)),
            Kind::Messages => try_rows(alloc, case, Messages),
            Kind::Requests => try_rows(alloc, case, Requests::new(alloc)?),
            Kind::Refusals => try_rows(alloc, case, Refusals::new(alloc)?),
            Kind::Conversations => try_conversation(alloc, case, journals),
            Kind::Scripts => try_script(alloc, case, journals),
        }
    }
}
