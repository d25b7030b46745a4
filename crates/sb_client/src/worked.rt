// Replies, worked out by hand.
ghost use Rattle.std.specs.Prelude.{◌≡◌, codes, true, false, option_map, Some};
ghost use Rattle.serde_json.specs.Read.{read};
ghost use Rattle.sb_client.specs.Replies.{refuses};

/// Which replies are refusals.
pub fn worked_replies()
    ensures done { option_map refuses (read (codes "{\"ok\":\"done\"}")) ≡ Some false }
    ensures kept { option_map refuses (read (codes "{\"kept\":{\"ok\":\"empty\"},\"ok\":\"kept\"}")) ≡ Some false }
    ensures missing { option_map refuses (read (codes "{\"refused\":\"EntityNotFound\"}")) ≡ Some true }
    ensures failed { option_map refuses (read (codes "{\"faults\":1,\"refused\":\"Stopped\"}")) ≡ Some true }
    ensures unknown { option_map refuses (read (codes "{\"refused\":\"Anything\"}")) ≡ Some true }
{}
