// Connections, worked out by hand.
ghost use Rattle.std.specs.Prelude.{◌≡◌, ◌∷◌, [], codes, replicate, true, false, None, Some, Err};
ghost use Rattle.sb_machine.specs.declared.reply.Refusal.TheVariants.{BadCall};
ghost use Rattle.sb_input.specs.Lines.{lines_of};
ghost use Rattle.sb_machine.specs.declared.call.Act.TheVariants.{Receive, Accept};
ghost use Rattle.sb_machine.specs.declared.call.Mode.TheVariants.{Lock};
ghost use Rattle.sb_machine.specs.declared.call.Part.TheVariants.{Main};
ghost use Rattle.sb_lines.specs.declared.form.Form.TheVariants.{Plain};
ghost use Rattle.sb_routes.specs.declared.routes.Address.TheVariants.{Entity};
ghost use Rattle.sb_routes.specs.declared.routes.Route.TheVariants.{Head};
ghost use Rattle.sb_http.specs.declared.fault.HttpFault.TheVariants.{HeadTooLarge};
ghost use Rattle.sb_rest.specs.declared.call.RestFault.TheVariants.{BadMethod};
ghost use Rattle.sb_server.specs.declared.telling.Turn.TheVariants.{Goes, Closes, Stops};
ghost use Rattle.sb_server.specs.declared.ending.ServeEnding.TheVariants.{Done, DoorFault, OutOfMemory};
ghost use Rattle.sb_server.specs.declared.work.Stop.TheVariants.{Enough, Ended, Fault, Stopped, OutOfMemory as NoMemory};
ghost use Rattle.sb_rest.specs.Worked.{q};
ghost use Rattle.sb_server.specs.declared.body.LineAsk.TheVariants.{NoCall};
ghost use Rattle.sb_server.specs.Bodies.{are_lines, has_lines, lines_in};
ghost use Rattle.sb_server.specs.Asks.{is_close, line_waits, lists_close, ms_in, waits};
ghost use Rattle.sb_server.specs.Responds.{fault_bytes, lines_bytes, turn_of};
ghost use Rattle.sb_server.specs.Serves.{serve_ending};
ghost use Rattle.sb_server.specs.Talks.{refusal_bytes};
ghost use Rattle.sb_server.specs.Times.{with_bytes};

/// The definitions say of these lines, answers and endings what was worked out by hand.
pub fn worked_connections()
    ensures listed { lists_close (codes "keep-alive , CLOSE\t") ≡ true }
    ensures longer { lists_close (codes "closed,not close,") ≡ false }
    ensures line { is_close (codes "CONNECTION", codes "close") ≡ true }
    ensures another_line { is_close (codes "Keep-Alive", codes "close") ≡ false }
    ensures minute { ms_in 60 ≡ 60000 }
    ensures a_kib_more { with_bytes 60000 1024 ≡ 61000 }
    ensures no_kib_more { with_bytes 60000 1023 ≡ 60000 }
    ensures a_mib_more { with_bytes 1000 1048576 ≡ 1025000 }
    ensures goes { turn_of false false ≡ Goes }
    ensures closes { turn_of true false ≡ Closes }
    ensures stops_first { turn_of true true ≡ Stops }
    ensures too_large { refusal_bytes HeadTooLarge ≡ codes "HTTP/1.1 431 Request Header Fields Too Large\r\nContent-Length: 0\r\nConnection: close\r\n\r\n" }
    ensures no_method { fault_bytes (BadMethod (Head (Entity Main))) false ≡ codes "HTTP/1.1 405 Method Not Allowed\r\nAllow: DELETE, POST\r\nContent-Length: 0\r\n\r\n" }
    ensures patient { waits (record { by = None; act = Receive q Lock None }) ≡ true }
    ensures numbered { waits (record { by = Some (record { client = codes "c"; number = 1 }); act = Receive q Lock None }) ≡ false }
    ensures patient_accept { waits (record { by = None; act = Accept q None }) ≡ true }
    ensures named_accept { waits (record { by = None; act = Accept q (Some (codes "s")) }) ≡ false }
    ensures numbered_accept { waits (record { by = Some (record { client = codes "c"; number = 1 }); act = Accept q None }) ≡ false }
    ensures patient_line { line_waits (record { timed = record { reading = 5; call = record { by = None; act = Accept q None } }; form = Plain; wait_s = 1 }) ≡ true }
    ensures line_once { line_waits (record { timed = record { reading = 5; call = record { by = None; act = Accept q None } }; form = Plain; wait_s = 0 }) ≡ false }
    ensures numbered_line { line_waits (record { timed = record { reading = 5; call = record { by = Some (record { client = codes "c"; number = 1 }); act = Accept q None } }; form = Plain; wait_s = 1 }) ≡ false }
    ensures door_first { serve_ending (NoMemory ∷ Fault ∷ Stopped ∷ []) ≡ DoorFault }
    ensures lost { serve_ending (Enough ∷ NoMemory ∷ []) ≡ OutOfMemory }
    ensures done { serve_ending (Enough ∷ Ended ∷ Stopped ∷ []) ≡ Done }
{}

/// The same of bodies of several script lines.
pub fn worked_bodies()
    ensures folded { has_lines ((codes "content-TYPE", codes "Application/X-NDJSON ;charset=utf-8") ∷ []) ≡ true }
    ensures last_type { has_lines ((codes "Content-Type", codes "application/x-ndjson") ∷ (codes "Content-Type", codes "application/json") ∷ []) ≡ false }
    ensures longer_type { has_lines ((codes "Content-Type", codes "application/x-ndjsons") ∷ []) ≡ false }
    ensures no_type { has_lines ((codes "Accept", codes "application/x-ndjson") ∷ []) ≡ false }
    ensures ended { lines_of (codes "a\nb\n") ≡ codes "a" ∷ codes "b" ∷ [] }
    ensures separated { lines_of (codes "a\r\nb") ≡ codes "a\r" ∷ codes "b" ∷ [] }
    ensures blank { are_lines (codes "a" ∷ codes " \t\r" ∷ codes "b" ∷ []) ≡ false }
    ensures hundred { are_lines (replicate 100 (codes "a")) ≡ true }
    ensures too_many { are_lines (replicate 101 (codes "a")) ≡ false }
    ensures none { lines_in [] ≡ NoCall (Err (BadCall [])) ∷ [] }
    ensures two_feeds { lines_in (codes "\n\n") ≡ NoCall (Err (BadCall [])) ∷ [] }
    ensures response { lines_bytes (codes "{}\n") true false ≡ codes "HTTP/1.1 200 OK\r\nContent-Type: application/x-ndjson\r\nContent-Length: 3\r\nConnection: close\r\n\r\n{}\n" }
{}
