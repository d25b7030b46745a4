// Messages whose bytes were worked out by hand.
ghost use Rattle.std.specs.Prelude.{◌≡◌, [], drop};
ghost use Rattle.sb_amqp.specs.Reads.{IsBad, IsUnsupported, Reads};
ghost use Rattle.sb_amqp.specs.Worked.{double_body, full, full_written, long_lived, short, short_read, short_written};
ghost use Rattle.sb_amqp.specs.Written.{written};

/// The definitions give the bytes and the places that were worked out by hand.
#[tactic(auto, unfolding(crate::specs::Written::written))]
pub fn worked_messages()
    ensures short { written short ≡ short_written }
    ensures full { written full ≡ full_written }
    // What a header can't say is left out.
    ensures long_lived { written long_lived ≡ drop 19 short_written }
    ensures read { Reads short_read short }
    ensures unsupported { IsUnsupported double_body 3 }
    ensures empty { IsBad [] 0 }
{}
