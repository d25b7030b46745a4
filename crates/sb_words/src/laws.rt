// What some words are, worked out by hand.
ghost use Rattle.std.specs.Prelude.{◌≡◌, ◌∷◌, ◌++◌, [], List, ℕ, codes, Some, map};
ghost use Rattle.sb_words.specs.Words.{form_in};
ghost use Rattle.sb_words.specs.WordRows.{callers, checkpoints, drills, no_callers, no_checkpoints, no_drills, no_forms, no_others, no_savers, no_servers, no_sharers, nones, others, over, savers, serve_with, servers, sharers, tellers, with_port};

use crate::command::Command;

/// Any folder can be named behind `=`, and one that doesn't begin with `-` as a word of its own.
pub fn worked_words()
    ensures joined { (folder : List ℕ) → form_in (codes "run" ∷ (codes "--data=" ++ folder) ∷ []) ≡ Some (over Command.Run folder) }
    ensures separate { form_in (codes "check" ∷ codes "--data" ∷ codes "." ∷ []) ≡ Some (over Command.Check (codes ".")) }
    ensures client { form_in (codes "client" ∷ codes "--port" ∷ codes "65535" ∷ []) ≡ Some (with_port 65535) }
    ensures serve { map (λ row. form_in (serve_with row.0)) servers ≡ map (λ row. Some row.1) servers }
    ensures none { map form_in no_forms ≡ nones no_forms }
    ensures no_serve { map form_in no_servers ≡ nones no_servers }
{}

/// Words with the options that say who may call a server, that it tells each call, how far time may
/// jump, how long a caller may take, how long a client waits, and that a check only looks.
pub fn worked_options()
    ensures callers { map (λ row. form_in (serve_with row.0)) callers ≡ map (λ row. Some row.1) callers }
    ensures tellers { map (λ row. form_in (serve_with row.0)) tellers ≡ map (λ row. Some row.1) tellers }
    ensures others { map (λ row. form_in row.0) others ≡ map (λ row. Some row.1) others }
    ensures no_caller { map form_in no_callers ≡ nones no_callers }
    ensures no_other { map form_in no_others ≡ nones no_others }
{}

/// Words with the option that says in how many threads a server serves.
pub fn worked_threads()
    ensures sharers { map (λ row. form_in (serve_with row.0)) sharers ≡ map (λ row. Some row.1) sharers }
    ensures no_sharer { map form_in no_sharers ≡ nones no_sharers }
{}

/// Words with the option by which a run or a server makes a checkpoint at its end, and that which says
/// when a server makes one by itself.
pub fn worked_checkpoints()
    ensures checkpoints { map (λ row. form_in row.0) checkpoints ≡ map (λ row. Some row.1) checkpoints }
    ensures no_checkpoint { map form_in no_checkpoints ≡ nones no_checkpoints }
    ensures savers { map (λ row. form_in (serve_with row.0)) savers ≡ map (λ row. Some row.1) savers }
    ensures no_saver { map form_in no_savers ≡ nones no_savers }
{}

/// The words of a drill.
pub fn worked_drills()
    ensures drills { map (λ row. form_in row.0) drills ≡ map (λ row. Some row.1) drills }
    ensures no_drill { map form_in no_drills ≡ nones no_drills }
{}
