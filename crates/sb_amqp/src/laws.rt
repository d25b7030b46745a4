// Laws of the spelling: functions without effect whose contracts are statements of specs/Laws.
ghost use Rattle.sb_amqp.specs.Laws.{ReadsBack};

/// What is written of a message that is kept is read as that message.
pub fn written_is_read()
    ensures { ReadsBack }
{}
