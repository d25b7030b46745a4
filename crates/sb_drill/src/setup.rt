// What a drill makes before its first drawn call.
ghost use Rattle.std.specs.Prelude.{◌≡◌, IfOk};
ghost use Rattle.sb_machine.specs.Namespace.{default_description};
ghost use Rattle.sb_drill.specs.Calls as calls;

use sb_machine::{Act, Description, FilterText};
use sb_model::Text;
use std::alloc::{AllocError, Global};

/// How many calls that takes.
pub(crate) const SETUP: u64 = 5;

/// The call of this number, from 0 to 4.
pub(crate) fn setup_act(alloc: Global, n: u64) -> Result<Act, AllocError>
    ensures { IfOk result (λ a. a ≡ calls.setup_act n) }
{
    match n {
        0 => create_plain(alloc),
        1 => create_session(alloc),
        2 => create_topic(alloc),
        3 => create_subscription(alloc),
        _ => create_rule(alloc),
    }
}

fn create_plain(alloc: Global) -> Result<Act, AllocError>
    ensures { IfOk result (λ a. a ≡ calls.create_plain) }
{
    let description = Description {
        window: Some(20),
        max_delivery: 3,
        dead_on_expiry: true,
        ..plain_description()
    };
    create_queue(alloc, "d0", description)
}

fn create_session(alloc: Global) -> Result<Act, AllocError>
    ensures { IfOk result (λ a. a ≡ calls.create_session) }
{
    let description = Description {
        requires_session: true,
        ..plain_description()
    };
    create_queue(alloc, "d1", description)
}

fn create_queue(alloc: Global, name: &str, description: Description) -> Result<Act, AllocError>
    ensures { IfOk result (λ a. a ≡ Act.CreateQueue name.now description) }
{
    Ok(Act::CreateQueue {
        name: Text::of(alloc, name)?,
        description,
    })
}

fn create_topic(alloc: Global) -> Result<Act, AllocError>
    ensures { IfOk result (λ a. a ≡ calls.create_topic) }
{
    Ok(Act::CreateTopic {
        name: Text::of(alloc, "dt")?,
        description: plain_description(),
    })
}

fn create_subscription(alloc: Global) -> Result<Act, AllocError>
    ensures { IfOk result (λ a. a ≡ calls.create_subscription) }
{
    let topic = Text::of(alloc, "dt")?;
    let name = Text::of(alloc, "s0")?;
    Ok(Act::CreateSubscription {
        topic,
        name,
        description: plain_description(),
    })
}

fn create_rule(alloc: Global) -> Result<Act, AllocError>
    ensures { IfOk result (λ a. a ≡ calls.create_rule) }
{
    let topic = Text::of(alloc, "dt")?;
    let subscription = Text::of(alloc, "s0")?;
    let name = Text::of(alloc, "r1")?;
    let filter = Text::of(alloc, "n % 3 = 0")?;
    let action = Text::of(alloc, "SET k = n + 1")?;
    Ok(Act::CreateRule {
        topic,
        subscription,
        name,
        filter: FilterText::Sql(filter),
        action: Some(action),
    })
}

// A description in which nothing is asked for.
fn plain_description() -> Description
    ensures { result ≡ default_description }
{
    Description {
        lock: 60,
        ttl: None,
        max_delivery: 10,
        window: None,
        requires_session: false,
        dead_on_expiry: false,
        dead_on_fault: true,
        forward_to: None,
        forward_dead_to: None,
    }
}
