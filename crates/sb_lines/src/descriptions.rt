// The fields of a description that each kind of entity has.
ghost use Rattle.std.specs.Prelude.{◌≡◌};
ghost use Rattle.sb_lines.specs.Descriptions as descriptions;

use crate::fault::LineFault;
use crate::keys::{Named, TruthOr, Whole, WholeOr};
use crate::table::{Field, Optional};
use sb_machine::Description;
use serde_json::Value;
use std::alloc::Global;

pub(crate) struct QueueFields;

impl Field for QueueFields {
    type Value = Description;

    ghost field = { λ _. descriptions.queue_fields };

    #[tactic(auto, unfolding(crate::specs::Descriptions::queue_fields))]
    fn knows(&self, key: &str) -> bool {
        key == "lock"
            || key == "ttl"
            || key == "max_delivery"
            || key == "window"
            || key == "requires_session"
            || key == "dead_on_expiry"
            || key == "forward_to"
            || key == "forward_dead_to"
    }

    #[tactic(auto, unfolding(crate::specs::Descriptions::queue_fields))]
    fn read(&self, alloc: Global, value: &Value) -> Result<Description, LineFault> {
        let lock = WholeOr("lock", 60).read(alloc, value)?;
        let ttl = Optional("ttl", Whole("ttl")).read(alloc, value)?;
        let max_delivery = WholeOr("max_delivery", 10).read(alloc, value)?;
        let window = Optional("window", Whole("window")).read(alloc, value)?;
        let requires_session = TruthOr("requires_session", false).read(alloc, value)?;
        let dead_on_expiry = TruthOr("dead_on_expiry", false).read(alloc, value)?;
        let forward_to = Optional("forward_to", Named("forward_to")).read(alloc, value)?;
        let forward_dead_to = Optional("forward_dead_to", Named("forward_dead_to")).read(
            alloc, value,
        )?;
        Ok(Description {
            lock,
            ttl,
            max_delivery,
            window,
            requires_session,
            dead_on_expiry,
            dead_on_fault: true,
            forward_to,
            forward_dead_to,
        })
    }
}

pub(crate) struct TopicFields;

impl Field for TopicFields {
    type Value = Description;

    ghost field = { λ _. descriptions.topic_fields };

    #[tactic(auto, unfolding(crate::specs::Descriptions::topic_fields))]
    fn knows(&self, key: &str) -> bool {
        key == "ttl" || key == "window"
    }

    #[tactic(auto, unfolding(crate::specs::Descriptions::topic_fields))]
    fn read(&self, alloc: Global, value: &Value) -> Result<Description, LineFault> {
        let ttl = Optional("ttl", Whole("ttl")).read(alloc, value)?;
        let window = Optional("window", Whole("window")).read(alloc, value)?;
        Ok(Description {
            lock: 60,
            ttl,
            max_delivery: 10,
            window,
            requires_session: false,
            dead_on_expiry: false,
            dead_on_fault: true,
            forward_to: None,
            forward_dead_to: None,
        })
    }
}

pub(crate) struct SubscriptionFields;

impl Field for SubscriptionFields {
    type Value = Description;

    ghost field = { λ _. descriptions.subscription_fields };

    #[tactic(auto, unfolding(crate::specs::Descriptions::subscription_fields))]
    fn knows(&self, key: &str) -> bool {
        key == "lock"
            || key == "ttl"
            || key == "max_delivery"
            || key == "requires_session"
            || key == "dead_on_expiry"
            || key == "dead_on_fault"
            || key == "forward_to"
            || key == "forward_dead_to"
    }

    #[tactic(auto, unfolding(crate::specs::Descriptions::subscription_fields))]
    fn read(&self, alloc: Global, value: &Value) -> Result<Description, LineFault> {
        let lock = WholeOr("lock", 60).read(alloc, value)?;
        let ttl = Optional("ttl", Whole("ttl")).read(alloc, value)?;
        let max_delivery = WholeOr("max_delivery", 10).read(alloc, value)?;
        let requires_session = TruthOr("requires_session", false).read(alloc, value)?;
        let dead_on_expiry = TruthOr("dead_on_expiry", false).read(alloc, value)?;
        let dead_on_fault = TruthOr("dead_on_fault", true).read(alloc, value)?;
        let forward_to = Optional("forward_to", Named("forward_to")).read(alloc, value)?;
        let forward_dead_to = Optional("forward_dead_to", Named("forward_dead_to")).read(
            alloc, value,
        )?;
        Ok(Description {
            lock,
            ttl,
            max_delivery,
            window: None,
            requires_session,
            dead_on_expiry,
            dead_on_fault,
            forward_to,
            forward_dead_to,
        })
    }
}
