// Events whose bytes were worked out by hand.
ghost use Rattle.std.specs.Prelude.{◌≡◌, ◌∷◌, ◌++◌, [], length, take, map, Some, None};
ghost use Rattle.sb_codec.specs.EventBytes.{event_bytes, read_event};
ghost use Rattle.sb_codec.specs.Worked.{ticked, ticked_bytes, made, made_bytes, entities, copies, sessions, together};

/// The definitions give the bytes that were worked out by hand, for a tick and for each act.
pub fn worked_bytes()
    ensures ticked { event_bytes ticked ≡ ticked_bytes }
    ensures made { (event_bytes made ≡ made_bytes) × (length made_bytes ≡ 31) }
    ensures entities { map (λ row. event_bytes row.0) entities ≡ map (λ row. row.1) entities }
    ensures copies { map (λ row. event_bytes row.0) copies ≡ map (λ row. row.1) copies }
    ensures sessions { map (λ row. event_bytes row.0) sessions ≡ map (λ row. row.1) sessions }
    ensures together { map (λ row. event_bytes row.0) together ≡ map (λ row. row.1) together }
    // Bytes that stop early, that go on, or that begin with no event's byte are not read.
    ensures read { read_event ticked_bytes ≡ Some ticked }
    ensures short { read_event (take 8 ticked_bytes) ≡ None }
    ensures long { read_event (ticked_bytes ++ 0 ∷ []) ≡ None }
    ensures other { read_event (2 ∷ ticked_bytes) ≡ None }
{}
