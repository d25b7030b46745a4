// Requests and their calls, worked out by hand.
ghost use Rattle.std.specs.Prelude.{◌≡◌, ◌∷◌, [], codes, true, false, replicate, Vec, Err, None, Ok, Some, pos, neg_ℤ};
ghost use Rattle.std.specs.declared.alloc.Global.{Global};
ghost use Rattle.serde_json.specs.Data.{string};
ghost use Rattle.serde_json.specs.Read.{read};
ghost use Rattle.sb_machine.specs.declared.reply.Refusal.TheVariants.{BadCall, ClientNotFound, InPart, NotDeferred, NotScheduled, SessionLost, SessionNotAllowed, Stopped, TxnFull, TxnScope, TxnsFull};
ghost use Rattle.sb_model.specs.declared.message.PropertyValue.TheVariants.{Int, Text};
ghost use Rattle.sb_machine.specs.declared.call.Act.TheVariants as act;
ghost use Rattle.sb_machine.specs.declared.call.How.TheVariants as how;
ghost use Rattle.sb_machine.specs.declared.call.Mode.TheVariants as mode;
ghost use Rattle.sb_machine.specs.declared.call.Part.TheVariants.{Main};
ghost use Rattle.sb_machine.specs.declared.call.Which.TheVariants.{Id};
ghost use Rattle.sb_machine.specs.declared.reply.PartRefusal.TheVariants as in_part;
ghost use Rattle.sb_machine.specs.declared.reply.Receipt.TheVariants.{Number, Duplicate};
ghost use Rattle.sb_machine.specs.declared.reply.Reply.TheVariants.{Done as WasDone, Sent, State, Together as Told};
ghost use Rattle.sb_machine.specs.declared.reply.StepReply.TheVariants as step_reply;
ghost use Rattle.sb_numbers.specs.declared.kind.Kind.TheVariants as kind;
ghost use Rattle.sb_numbers.specs.declared.kind.Outcome.TheVariants as outcome;
ghost use Rattle.sb_numbers.specs.declared.numbers.Bucket.{Bucket};
ghost use Rattle.sb_numbers.specs.declared.numbers.Counted.{Counted};
ghost use Rattle.sb_routes.specs.declared.routes.Address.TheVariants.{Entity};
ghost use Rattle.sb_routes.specs.declared.routes.Route.TheVariants.{Messages, Deferred, Locked, Scheduled, Together};
ghost use Rattle.sb_routes.specs.declared.routes.Route.TheVariants.{NamedSession, HeldSession, SessionState, SessionHead, SessionDeferred, SessionLocked};
ghost use Rattle.sb_http.specs.declared.response.Status.TheVariants as status;
ghost use Rattle.sb_lines.specs.Faults.{bad_key};
ghost use Rattle.sb_rest.specs.declared.call.RestFault.TheVariants.{Foreign, NoKey, NoRoute, BadMethod, Bad, Script};
ghost use Rattle.sb_rest.specs.Batches as batches;
ghost use Rattle.sb_rest.specs.Brokers.{broker_in};
ghost use Rattle.sb_rest.specs.Calls.{call_of, at_locked, number_at, together_in};
ghost use Rattle.sb_rest.specs.Callers.{is_foreign, has_key, is_known, shows};
ghost use Rattle.sb_rest.specs.declared.asked.Asked.TheVariants.{Put};
ghost use Rattle.sb_rest.specs.declared.asked.Scope.TheVariants as scope;
ghost use Rattle.sb_rest.specs.Dispositions.{how_of};
ghost use Rattle.sb_rest.specs.declared.disposition.Disposition.TheVariants.{DeadLetter};
ghost use Rattle.sb_rest.specs.Escapes.{ascii_json};
ghost use Rattle.sb_rest.specs.Forms.{fits_head, is_json_asked, lists_json, unasked};
ghost use Rattle.sb_rest.specs.Lifetimes.{span_in};
ghost use Rattle.sb_rest.specs.Values.{header_value};
ghost use Rattle.sb_rest.specs.Repeats as repeats;
ghost use Rattle.sb_rest.specs.Responses.{fault_response, refusal_response, refusal_status, refusal_text, method_response, key_response, sent_response, accepted_response, held_response, state_response, together_response};
ghost use Rattle.sb_rest.specs.ServerNumbers.{server_text, calls_text, bucket_of, journal_text};
ghost use Rattle.sb_rest.specs.Shown.{broker_text, location_text, place_of, property_fields};
ghost use Rattle.sb_rest.specs.Worked.{request, sends, takes, takes_as, living, text_alone, q, unlocked, hosted, keyed, showing, waiting, takes_deferred, cancels, puts, settles, why, first_token, first_copy, with_umlaut, smile};
ghost use Rattle.sb_rest.specs.Worked.{held, makes, of_session, on, one_record, young, sends_nothing, acts_together, refused_by, sends_half};

/// The definitions say of these requests what was worked out by hand.
pub fn worked_calls()
    ensures send { call_of unlocked (request (codes "POST") (codes "/Q/messages") ((codes "Content-Length", codes "2") ∷ []) (codes "hi")) ≡ sends (text_alone (codes "hi") ∷ []) }
    ensures origin { call_of unlocked (request (codes "POST") (codes "/$script") ((codes "Origin", codes "null") ∷ []) []) ≡ Err Foreign }
    ensures another_site { call_of unlocked (request (codes "DELETE") (codes "/x/y/z") ((codes "sec-fetch-site", codes "cross-site") ∷ []) []) ≡ Err Foreign }
    ensures own_site { call_of unlocked (request (codes "POST") (codes "/$script") ((codes "Sec-Fetch-Site", codes "same-origin") ∷ (codes "Sec-Fetch-Site", codes "none") ∷ []) []) ≡ Err Script }
    ensures no_property { call_of unlocked (request (codes "POST") (codes "/q/messages") ((codes "X-Forwarded-For", codes "1") ∷ (codes "Sec-Fetch-Mode", codes "cors") ∷ (codes "Proxy-Authorization", codes "b") ∷ (codes "DNT", codes "1") ∷ []) (codes "hi")) ≡ sends (text_alone (codes "hi") ∷ []) }
    ensures receive { call_of unlocked (request (codes "POST") (codes "/q/messages/head?timeout=0") [] []) ≡ takes 0 }
    ensures waits { call_of unlocked (request (codes "POST") (codes "/q/messages/head?a=b&timeout=%31&timeout=x") [] []) ≡ takes 1 }
    ensures numbered { call_of unlocked (request (codes "POST") (codes "/q/messages/head?timeout=0") ((codes "repeat-client", codes "c") ∷ (codes "Repeat-Number", codes "007") ∷ []) []) ≡ takes_as 0 }
    ensures client_alone { call_of unlocked (request (codes "POST") (codes "/q/messages/head") ((codes "Repeat-Client", codes "c") ∷ []) []) ≡ Err (Bad None (codes "Repeat-Client")) }
    ensures number_alone { call_of unlocked (request (codes "POST") (codes "/q/messages/head") ((codes "Repeat-Number", codes "1") ∷ []) []) ≡ Err (Bad None (codes "Repeat-Number")) }
    ensures too_long { call_of unlocked (request (codes "POST") (codes "/q/messages/head?timeout=3601") [] []) ≡ Err (Bad None (codes "timeout")) }
    ensures method { call_of unlocked (request (codes "DELETE") (codes "/q/messages") [] []) ≡ Err (BadMethod Messages) }
    ensures plain_script { call_of unlocked (request (codes "POST") (codes "/script") [] []) ≡ Err Script }
    ensures route { call_of unlocked (request (codes "GET") (codes "/x/y/z") [] []) ≡ Err NoRoute }
    ensures script { call_of unlocked (request (codes "POST") (codes "/$script") [] []) ≡ Err Script }
{}

/// The same of who may call: whom a page can't pass for, and what shows a key.
pub fn worked_callers()
    ensures page { is_foreign unlocked ((codes "Origin", codes "null") ∷ []) ≡ true }
    ensures any_host { is_foreign unlocked ((codes "Host", codes "attacker.example") ∷ []) ≡ false }
    ensures other_host { is_foreign hosted ((codes "host", codes "attacker.example") ∷ []) ≡ true }
    ensures listed { is_foreign hosted ((codes "Host", codes "BUS:8080") ∷ []) ≡ false }
    ensures longer { is_known [] (codes "localhost.example.org") ≡ false }
    ensures folded { is_known [] (codes "LOCALHOST:8080") ≡ true }
    ensures address { is_known [] (codes "127.0.0.1:80") ≡ true }
    ensures brackets { is_known [] (codes "[::1]:8080") ≡ true }
    ensures no_brackets { is_known [] (codes "::1") ≡ false }
    ensures no_port { is_known [] (codes "localhost:80.example") ≡ false }
    ensures shown { has_key keyed (showing (codes "bearer a-key-of-20-letters.") ∷ []) ≡ true }
    ensures none_asked { has_key unlocked [] ≡ true }
    ensures none_shown { has_key keyed [] ≡ false }
    ensures last_off { has_key keyed (showing (codes "Bearer a-key-of-20-letters,") ∷ []) ≡ false }
    ensures front { has_key keyed (showing (codes "Bearer a-key-of-20-letters") ∷ []) ≡ false }
    ensures more { has_key keyed (showing (codes "Bearer a-key-of-20-letters..") ∷ []) ≡ false }
    ensures twice { has_key keyed (showing (codes "Bearer a-key-of-20-letters.") ∷ showing (codes "Bearer a-key-of-20-letters.") ∷ []) ≡ false }
    ensures scheme { has_key keyed (showing (codes "Basic a-key-of-20-letters.") ∷ []) ≡ false }
    ensures two_spaces { shows (codes "k") (codes "Bearer  k") ≡ false }
    ensures called { call_of keyed (request (codes "POST") (codes "/$script") (showing (codes "BEARER a-key-of-20-letters.") ∷ []) []) ≡ Err Script }
    ensures not_called { call_of keyed (request (codes "GET") (codes "/x") [] []) ≡ Err NoKey }
    ensures foreign_first { call_of keyed (request (codes "GET") (codes "/x") ((codes "Origin", codes "null") ∷ []) []) ≡ Err Foreign }
    ensures unknown_host { call_of hosted (request (codes "POST") (codes "/$script") [] []) ≡ Err Foreign }
{}

/// The same of headers and batches.
pub fn worked_parts()
    ensures half_a_second { broker_in (codes "{\"TimeToLive\":1.5}") ≡ Err (bad_key None (codes "TimeToLive")) }
    ensures whole { broker_in (codes "{\"TimeToLive\":10.0}") ≡ Ok (living 10) }
    ensures span { broker_in (codes "{\"TimeToLiveTimeSpan\":\"0.00:00:40\"}") ≡ Ok (living 40) }
    ensures days { span_in (codes "1.02:03:04") ≡ Some 93784 }
    ensures hour { span_in (codes "1.25:00:00") ≡ None }
    ensures one_digit { span_in (codes "0.0:00:40") ≡ None }
    ensures no_days { span_in (codes "00:00:40") ≡ None }
    ensures fraction { span_in (codes "0.00:00:40.5") ≡ None }
    ensures no_time { broker_in (codes "{\"TimeToLiveTimeSpan\":\"0.00:00:00\"}") ≡ Err (bad_key None (codes "TimeToLiveTimeSpan")) }
    ensures both_times { broker_in (codes "{\"TimeToLive\":40,\"TimeToLiveTimeSpan\":\"0.00:00:40\"}") ≡ Err (bad_key None (codes "TimeToLiveTimeSpan")) }
    ensures fraction_of_a_number { repeats.numbered (codes "c") (codes "1.5") ≡ Err (bad_key None (codes "Repeat-Number")) }
    ensures no_number { repeats.numbered (codes "c") (codes "0") ≡ Err (bad_key None (codes "Repeat-Number")) }
    ensures greatest { repeats.number_in (codes "9223372036854775807") ≡ Some 9223372036854775807 }
    ensures above { repeats.number_in (codes "9223372036854775808") ≡ None }
    ensures no_client { repeats.numbered [] (codes "1") ≡ Err (bad_key None (codes "Repeat-Client")) }
    ensures no_object { broker_in (codes "7") ≡ Err (bad_key None (codes "BrokerProperties")) }
    ensures number { header_value (codes "-7") ≡ Int (neg_ℤ (pos 7)) }
    ensures zeros { header_value (codes "007") ≡ Int (pos 7) }
    ensures signed { header_value (codes "+1") ≡ Text (codes "+1") }
    ensures quoted { header_value (codes "\"a\"") ≡ Text (codes "a") }
    ensures one_quote { header_value (codes "\"") ≡ Text (codes "\"") }
    ensures batch { batches.messages_in (codes "[{\"Body\":\"a\"},{}]") ≡ Ok (text_alone (codes "a") ∷ text_alone [] ∷ []) }
    ensures no_array { batches.messages_in (codes "{}") ≡ Err (bad_key None (codes "Body")) }
    ensures batch_type { batches.is_batch_type (codes "Application/vnd.microsoft.servicebus.json ; charset=utf-8") ≡ true }
{}

/// The same of what becomes of a message under a lock.
pub fn worked_dispositions()
    ensures method { at_locked (Entity Main) (codes "PUT") ≡ Some (Put (Entity Main) scope.Whole) }
    ensures abandon { puts [] (why (codes "7")) ≡ settles how.Abandon }
    ensures defer { puts (codes "a=b&disposition=defer&disposition=x") (why (codes "7")) ≡ settles how.Defer }
    ensures dead_letter { puts (codes "disposition=dead-letter") (why (codes "{\"DeadLetterReason\":\"r\"}")) ≡ settles (how.DeadLetter (Some (codes "r")) None) }
    ensures another { puts (codes "disposition=drop") [] ≡ Err (bad_key None (codes "disposition")) }
    ensures before_number { puts (codes "disposition=abandon") ((codes "Repeat-Number", codes "1") ∷ []) ≡ Err (bad_key None (codes "disposition")) }
    ensures behind_timeout { puts (codes "disposition=drop&timeout=x") [] ≡ Err (bad_key None (codes "timeout")) }
    ensures behind_number { puts (codes "disposition=dead-letter") ((codes "Repeat-Number", codes "1") ∷ why (codes "7")) ≡ Err (bad_key None (codes "Repeat-Number")) }
    ensures both { how_of DeadLetter (why (codes "{\"DeadLetterErrorDescription\":\"d\",\"DeadLetterReason\":\"r\"}")) ≡ Ok (how.DeadLetter (Some (codes "r")) (Some (codes "d"))) }
    ensures neither { how_of DeadLetter [] ≡ Ok (how.DeadLetter None None) }
    ensures absent { how_of DeadLetter (why (codes "{\"DeadLetterReason\":\"\",\"DeadLetterErrorDescription\":null}")) ≡ Ok (how.DeadLetter None None) }
    ensures no_reason { how_of DeadLetter (why (codes "{\"DeadLetterErrorDescription\":7,\"DeadLetterReason\":7}")) ≡ Err (bad_key None (codes "DeadLetterReason")) }
    ensures no_description { how_of DeadLetter (why (codes "{\"DeadLetterErrorDescription\":[]}")) ≡ Err (bad_key None (codes "DeadLetterErrorDescription")) }
    ensures no_object { how_of DeadLetter (why (codes "\"r\"")) ≡ Err (bad_key None (codes "BrokerProperties")) }
{}

/// The same of messages that are named by their numbers.
pub fn worked_numbers()
    ensures deferred { call_of unlocked (request (codes "POST") (codes "/q/messages/7?timeout=0") [] []) ≡ takes_deferred 7 mode.Lock 0 }
    ensures deleted { call_of unlocked (request (codes "DELETE") (codes "/Q/messages/7") [] []) ≡ takes_deferred 7 mode.Delete 60 }
    ensures cancelled { call_of unlocked (request (codes "DELETE") (codes "/q/scheduled/7") [] []) ≡ cancels 7 }
    ensures no_number { call_of unlocked (request (codes "POST") (codes "/q/messages/m") [] []) ≡ Err (Bad None (codes "seq")) }
    ensures number_first { call_of unlocked (request (codes "DELETE") (codes "/q/scheduled/0?timeout=x") [] []) ≡ Err (Bad None (codes "seq")) }
    ensures then_timeout { call_of unlocked (request (codes "DELETE") (codes "/q/scheduled/1?timeout=x") [] []) ≡ Err (Bad None (codes "timeout")) }
    ensures method { call_of unlocked (request (codes "PUT") (codes "/q/messages/7") [] []) ≡ Err (BadMethod (Deferred (Entity Main))) }
    ensures another_method { call_of unlocked (request (codes "POST") (codes "/q/scheduled/7") [] []) ≡ Err (BadMethod (Scheduled (Entity Main))) }
    ensures greatest { number_at 1 (codes "/9223372036854775807") ≡ Ok 9223372036854775807 }
    ensures above { number_at 1 (codes "/9223372036854775808") ≡ Err (bad_key None (codes "seq")) }
    ensures escaped { number_at 1 (codes "/%30%37/x") ≡ Ok 7 }
    ensures signed { number_at 1 (codes "/+7") ≡ Err (bad_key None (codes "seq")) }
    ensures no_text { number_at 1 (codes "/%FF") ≡ Err (bad_key None (codes "path")) }
{}

/// The same of the parts of responses.
pub fn worked_responses()
    ensures broker { broker_text [] (codes "Thu, 01 Jan 1970 00:00:01 GMT") (codes "Thu, 01 Jan 1970 00:01:01 GMT") first_copy
        ≡ codes "{\"DeliveryCount\":1,\"EnqueuedSequenceNumber\":1,\"EnqueuedTimeUtc\":\"Thu, 01 Jan 1970 00:00:01 GMT\",\"LockToken\":\"a1b2c3d4-e5f6-0718-0000-000000000001\",\"LockedUntilUtc\":\"Thu, 01 Jan 1970 00:01:01 GMT\",\"SequenceNumber\":1}" }
    ensures location { location_text (codes "h") (place_of q None (text_alone [])) 1 first_token ≡ codes "http://h/q/messages/1/a1b2c3d4-e5f6-0718-0000-000000000001" }
    ensures refused { refusal_text (BadCall (codes "TimeToLive")) ≡ codes "{\"key\":\"TimeToLive\",\"refused\":\"BadCall\"}" }
    ensures stopped { refusal_text (Stopped 1) ≡ codes "{\"refused\":\"Stopped\"}" }
    ensures property { property_fields (record { name = codes "a"; value = Text (codes "x") }) ≡ (codes "a", codes "\"x\"") ∷ [] }
    ensures key { key_response.fields ≡ (codes "WWW-Authenticate", codes "Bearer") ∷ [] }
    ensures allow { (method_response (Locked (Entity Main))).fields ≡ (codes "Allow", codes "DELETE, POST, PUT") ∷ [] }
    ensures allow_deferred { (method_response (Deferred (Entity Main))).fields ≡ (codes "Allow", codes "DELETE, POST") ∷ [] }
    ensures allow_scheduled { (method_response (Scheduled (Entity Main))).fields ≡ (codes "Allow", codes "DELETE") ∷ [] }
    ensures sent { sent_response (waiting ∷ []) (Sent (Number 7 ∷ [])) ≡ record { status = status.Created; fields = (codes "BrokerProperties", codes "{\"SequenceNumber\":7}") ∷ []; body = []; ends = false } }
    ensures sent_at_once { (sent_response (text_alone (codes "hi") ∷ []) (Sent (Number 7 ∷ []))).fields ≡ [] }
    ensures sent_twice { (sent_response (waiting ∷ []) (Sent (Duplicate ∷ []))).fields ≡ [] }
    ensures sent_two { (sent_response (waiting ∷ waiting ∷ []) (Sent (Number 7 ∷ Number 8 ∷ []))).fields ≡ [] }
    ensures not_deferred { refusal_status NotDeferred ≡ status.NotFound }
    ensures not_scheduled { refusal_status NotScheduled ≡ status.NotFound }
    ensures unknown_client { refusal_status ClientNotFound ≡ status.NotFound }
    ensures umlaut { ascii_json with_umlaut ≡ codes "f\\u00fcr" }
    ensures pair { ascii_json smile ≡ codes "\\ud83d\\ude00" }
    ensures delete { ascii_json (126 ∷ 127 ∷ []) ≡ codes "~\\u007f" }
    ensures same_umlaut { read (codes "\"f\\u00fcr\"") ≡ Some (string with_umlaut) }
    ensures same_smile { read (codes "\"\\ud83d\\ude00\"") ≡ Some (string smile) }
    ensures escaped { property_fields (record { name = codes "a"; value = Text with_umlaut }) ≡ (codes "a", codes "\"f\\u00fcr\"") ∷ [] }
    ensures cookie { property_fields (record { name = codes "set-cookie"; value = Text (codes "x") }) ≡ [] }
    ensures proxy { property_fields (record { name = codes "x-accel-redirect"; value = Text (codes "x") }) ≡ [] }
    ensures reserved { property_fields (record { name = codes "host"; value = Text (codes "x") }) ≡ [] }
{}

/// The same of messages as JSON.
pub fn worked_forms()
    ensures among { lists_json (codes "text/plain, Application/JSON ;q=0.9") ≡ true }
    ensures longer { lists_json (codes "application/json-patch, application/jsonx, text/json") ≡ false }
    ensures any { lists_json (codes "*/*") ≡ false }
    ensures accept { is_json_asked (codes "ACCEPT", codes "application/json") ≡ true }
    ensures another { is_json_asked (codes "Content-Type", codes "application/json") ≡ false }
    ensures small { fits_head ((codes "a", codes "bc") ∷ []) ≡ true }
    ensures many { fits_head (replicate 61 (codes "a", [])) ≡ true }
    ensures too_many { fits_head (replicate 62 (codes "a", [])) ≡ false }
    ensures unasked { unasked false ≡ (codes "Message-Form", codes "json") ∷ [] }
{}

/// The same of sessions.
pub fn worked_sessions()
    ensures next { call_of unlocked (request (codes "POST") (codes "/q/sessions/head") [] []) ≡ makes (act.Accept q None) }
    ensures named { on (NamedSession (Entity Main)) (codes "POST") (codes "/q/sessions/%68Ead") [] ≡ makes (act.Accept q (Some (codes "hEad"))) }
    ensures no_text { on (NamedSession (Entity Main)) (codes "POST") (codes "/q/sessions/%FF") [] ≡ Err (Bad None (codes "path")) }
    ensures renewed { on (HeldSession (Entity Main)) (codes "POST") (held []) [] ≡ makes (act.SessionRenew q first_token) }
    ensures closed { on (HeldSession (Entity Main)) (codes "DELETE") (held []) [] ≡ makes (act.SessionClose q first_token) }
    ensures no_token { on (HeldSession (Entity Main)) (codes "DELETE") (codes "/q/sessions/s/1") [] ≡ Err (Bad None (codes "token")) }
    ensures read { on (SessionState (Entity Main)) (codes "GET") (held (codes "/state")) [] ≡ makes (act.SessionState q first_token) }
    ensures remembered { on (SessionState (Entity Main)) (codes "PUT") (held (codes "/state")) (codes "hi") ≡ makes (act.SessionSet q first_token (Some (codes "hi"))) }
    ensures forgotten { on (SessionState (Entity Main)) (codes "PUT") (held (codes "/state")) [] ≡ makes (act.SessionSet q first_token None) }
    ensures received { on (SessionHead (Entity Main)) (codes "POST") (held (codes "/messages/head")) [] ≡ makes (act.Receive q mode.Lock (Some first_token)) }
    ensures deleted { on (SessionHead (Entity Main)) (codes "DELETE") (held (codes "/messages/head")) [] ≡ makes (act.Receive q mode.Delete (Some first_token)) }
    ensures deferred { on (SessionDeferred (Entity Main)) (codes "POST") (held (codes "/messages/7")) [] ≡ makes (act.ReceiveDeferred q 7 mode.Lock (Some first_token)) }
    ensures deferred_deleted { on (SessionDeferred (Entity Main)) (codes "DELETE") (held (codes "/messages/7")) [] ≡ makes (act.ReceiveDeferred q 7 mode.Delete (Some first_token)) }
    ensures completed { on (SessionLocked (Entity Main)) (codes "DELETE") (held (codes "/messages/1/a1b2c3d4-e5f6-0718-0000-000000000001")) [] ≡ makes (act.Settle q (Id (codes "1")) first_token (Some first_token) how.Complete None) }
    ensures abandoned { on (SessionLocked (Entity Main)) (codes "PUT") (held (codes "/messages/1/a1b2c3d4-e5f6-0718-0000-000000000001")) [] ≡ makes (act.Settle q (Id (codes "1")) first_token (Some first_token) how.Abandon None) }
    ensures no_renewal { on (SessionLocked (Entity Main)) (codes "POST") (held (codes "/messages/1/a1b2c3d4-e5f6-0718-0000-000000000001")) [] ≡ Err (BadMethod (SessionLocked (Entity Main))) }
{}

/// The same of the responses to calls for sessions.
pub fn worked_session_responses()
    ensures accepted { (accepted_response q (codes "h") (codes "a b") first_token (codes "Thu, 01 Jan 1970 00:01:01 GMT")).fields
        ≡ (codes "BrokerProperties", codes "{\"LockedUntilUtc\":\"Thu, 01 Jan 1970 00:01:01 GMT\",\"SessionId\":\"a b\"}")
        ∷ (codes "Location", codes "http://h/q/sessions/a%20b/a1b2c3d4-e5f6-0718-0000-000000000001") ∷ [] }
    ensures location { location_text (codes "h") (place_of q (Some first_token) of_session) 1 first_token
        ≡ codes "http://h/q/sessions/a%20b/a1b2c3d4-e5f6-0718-0000-000000000001/messages/1/a1b2c3d4-e5f6-0718-0000-000000000001" }
    ensures held { held_response 1000 (codes "d") ≡ record {
      status = status.Conflict;
      fields = (codes "Content-Type", codes "application/json") ∷ (codes "Retry-After", codes "d") ∷ [];
      body = codes "{\"refused\":\"SessionHeld\",\"until\":1000}";
      ends = false;
    } }
    ensures lost { refusal_status SessionLost ≡ status.NotFound }
    ensures not_allowed { refusal_status SessionNotAllowed ≡ status.BadRequest }
    ensures state { (state_response (State (Some (codes "hi")))).body ≡ codes "hi" }
    ensures no_state { (state_response (State None)).status ≡ status.NoContent }
    ensures allow_state { (method_response (SessionState (Entity Main))).fields ≡ (codes "Allow", codes "GET, PUT") ∷ [] }
    ensures allow_locked { (method_response (SessionLocked (Entity Main))).fields ≡ (codes "Allow", codes "DELETE, PUT") ∷ [] }
{}

/// The same of operations that act together.
pub fn worked_together()
    ensures call { call_of unlocked (request (codes "POST") (codes "/$together") [] sends_nothing) ≡ makes acts_together }
    ensures behind_number { call_of unlocked (request (codes "POST") (codes "/$together") ((codes "Repeat-Number", codes "1") ∷ []) (codes "7")) ≡ Err (Bad None (codes "Repeat-Number")) }
    ensures no_object { on Together (codes "POST") (codes "/$together") (codes "[]") ≡ Err (Bad None (codes "Body")) }
    ensures empty { on Together (codes "POST") (codes "/$together") [] ≡ Err (Bad None (codes "Body")) }
    ensures method { on Together (codes "GET") (codes "/$together") [] ≡ Err (BadMethod Together) }
    ensures other_act { together_in (codes "{\"do\":\"receive\",\"from\":\"q\"}") ≡ Err (bad_key None (codes "do")) }
    ensures wordless { together_in (codes "{\"entity\":\"q\",\"operations\":[]}") ≡ Err (bad_key None (codes "do")) }
    ensures numbered { together_in (codes "{\"do\":\"together\",\"client\":\"c\",\"number\":1}") ≡ Err (bad_key None (codes "client")) }
    ensures timed { together_in (codes "{\"at\":1,\"do\":\"together\"}") ≡ Err (bad_key None (codes "at")) }
    ensures operations { together_in (codes "{\"do\":\"together\",\"entity\":\"q\",\"operations\":[7]}") ≡ Err (bad_key (Some 0) (codes "operations")) }
    ensures placed { on Together (codes "POST") (codes "/$together") sends_half ≡ Err (Bad (Some 1) (codes "messages")) }
    ensures bad_part { fault_response (Bad (Some 1) (codes "messages")) ≡ refused_by status.BadRequest (codes "{\"key\":\"messages\",\"part\":1,\"refused\":\"BadCall\"}") }
    ensures lost_part { refusal_response (InPart 1 in_part.LockLost) ≡ refused_by status.NotFound (codes "{\"part\":1,\"refused\":\"LockLost\"}") }
    ensures allow { (method_response Together).fields ≡ (codes "Allow", codes "POST") ∷ [] }
    ensures told { together_response (Told (step_reply.Done ∷ step_reply.Sent (Number 7 ∷ Duplicate ∷ []) ∷ [])) ≡ record {
      status = status.Ok;
      fields = (codes "Content-Type", codes "application/json") ∷ [];
      body = codes "{\"ok\":\"together\",\"replies\":[{\"ok\":\"done\"},{\"numbers\":[7,null],\"ok\":\"sent\"}]}";
      ends = false;
    } }
    ensures another_reply { (together_response WasDone).status ≡ status.InternalServerError }
    ensures scope { refusal_status TxnScope ≡ status.BadRequest }
    ensures full { refusal_status TxnFull ≡ status.Forbidden }
    ensures all_full { refusal_status TxnsFull ≡ status.Conflict }
{}

/// The same of the numbers of a server.
pub fn worked_server_numbers()
    ensures server { (calls : Vec Counted Global) → (spent : Vec Bucket Global) → server_text (young calls spent)
        ≡ codes "{\"connections\":1,\"journal_bytes\":43,\"journal_records\":1,\"syncs\":2,\"threads\":1,\"uptime_seconds\":12,\"version\":\"0.1.0\",\"waiting\":0,\"workers\":16}" }
    ensures calls { calls_text (record { kind = kind.CreateQueue; outcome = outcome.Refused; count = 10 } ∷ [])
        ≡ codes "# HELP zolmutarn_calls_total Calls since the server began, by what they ask for and how they were answered.\n# TYPE zolmutarn_calls_total counter\nzolmutarn_calls_total{act=\"create-queue\",answer=\"refused\"} 10\n" }
    ensures bucket { bucket_of (record { most = 250; count = 1 }) ≡ codes "zolmutarn_call_microseconds_bucket{le=\"250\"} 1\n" }
    ensures journal { journal_text one_record
        ≡ codes "# HELP zolmutarn_syncs_total Syncs of the journal's records since the server began, two for every group.\n# TYPE zolmutarn_syncs_total counter\nzolmutarn_syncs_total 2\n# HELP zolmutarn_journal_records_total Records of the journal since the namespace began.\n# TYPE zolmutarn_journal_records_total counter\nzolmutarn_journal_records_total 1\n# HELP zolmutarn_journal_bytes Bytes of the journal, up to its end.\n# TYPE zolmutarn_journal_bytes gauge\nzolmutarn_journal_bytes 43\n" }
{}
