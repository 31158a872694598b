//! Laws of the definitions, for a reader of an output. The functions do nothing: their contracts are what is proved.

ghost use Rattle.std.specs.Prelude.{◌≡◌, ℕ, Bool, List, [], false};
ghost use Rattle.std.specs.List.{AllByRecursion};
ghost use Rattle.command_history.specs.declared.events.Event.{Event};
ghost use Rattle.desk_rules.specs.Position.{Position};
ghost use Rattle.statements.specs.Runs.{after, output, status_of};
ghost use Rattle.racf_workers.specs.Lines.{request_lines};
ghost use Rattle.racf_workers.specs.RequestFile.{new_file, request_machine};
ghost use Rattle.racf_ask.specs.Asking.{ask_output, ask_status, IsSilent};

/// What is printed for questions without numbers is what a request file prints over the empty history, and so is the
/// status, with numbers or without. At whatever fronts the lines of a request file are answered: where nothing was
/// accepted in any of them, it prints that text and no other.
pub fn questions_are_a_request_file()
    ensures output { (base : Position) (bytes : List ℕ) →
        ask_output false base bytes ≡ output (request_machine base [] []) (request_lines.items bytes) (new_file [] []) }
    ensures status { (numbered : Bool) (base : Position) (bytes : List ℕ) →
        ask_status numbered base bytes ≡ status_of (request_machine base [] []) (after (request_machine base [] []) (request_lines.items bytes) (new_file [] [])) }
    ensures only { (base : Position) (seen : List Event) (fronts : List (List Event)) (bytes : List ℕ) → IsSilent seen → AllByRecursion IsSilent fronts →
        output (request_machine base seen fronts) (request_lines.items bytes) (new_file seen fronts) ≡ ask_output false base bytes }
{}
