//! Laws of the definitions, for a reader of an output. The functions do nothing: their contracts are what is proved.

ghost use Rattle.std.specs.Prelude.{◌≡◌, ℕ, List, ◌∷◌, ◌++◌, true, false, map, Option, None, Some, Ok, unwrap_or};
ghost use Rattle.std.specs.Result.{result_ok};
ghost use Rattle.std.specs.List.{AllByRecursion, concat, flat_map, list_any};
ghost use Rattle.decision.specs.Table.{decided, fast_decided};
ghost use Rattle.decision.specs.Verify.{verified};
ghost use Rattle.acee.specs.declared.acee.Acee.{Acee};
ghost use Rattle.acee.specs.declared.request.VerifyRequest.{VerifyRequest};
ghost use Rattle.request_files.specs.Acees.{acee_named, put_refusal};
ghost use Rattle.request_files.specs.Grammar.{Access, Auth, Fastauth, Verify, read};
ghost use Rattle.request_files.specs.Worked.{decision_text, verify_told};
ghost use Rattle.statements.specs.declared.statement.Statement.{Statement};
ghost use Rattle.statements.specs.declared.statement.Statement.TheVariants.{Command, Issuer, Request};
ghost use Rattle.statements.specs.Runs.{after};
ghost use Rattle.statements.specs.Runs.{whole_status};
ghost use Rattle.statements.specs.Replies.{reply_line};
ghost use Rattle.statements.specs.declared.reply.Reply.TheVariants.{Halted, Refused};
ghost use Rattle.racf_stream.specs.Script.{stream, script_output, script_status};
ghost use Rattle.statements.specs.Inputs.{statements};
ghost use Rattle.statements.specs.IssuerLines.{first_issuer, issuer_named};
ghost use Rattle.statements.specs.declared.issuer.Issuing.{Issuing};
ghost use Rattle.statements.specs.declared.issuer.Issuing.TheVariants.{Fixed};
ghost use Rattle.statements.specs.declared.reply.Refusal.TheVariants.{IssuerFixed};
ghost use Rattle.racf_stream.specs.Stream.{new_stream, number_of, step, answer_outcome, outcome_of};
ghost use Rattle.desk_rules.specs.Position.{Position, position_after};
ghost use Rattle.racf_stream.specs.Printed.{Turn, IsReached, IsSpelled, input_turns, turns, printed, behind, PrintsItsLines, printed_lines, split_lines};
ghost use Rattle.racf_stream.specs.Printed.{says_failed, says_refused};

use desk_rules::laws::no_line_feed_is_told;
use request_files::laws::a_request_prints_its_lines;
use statements::laws::a_reply_is_one_line;

/// The output of a whole input is what its statements print at their turns, in order. Whatever the input's bytes, each
/// prints nothing, or one line, or the line of a decision and an AUDIT line behind it, so that the lines of the output
/// are those that are printed at the turns. The state at a statement's turn is that behind the statements before it.
pub fn an_item_prints_its_lines()
    ensures whole { (fault : Option ℕ) (issuing : Issuing) (base : Position) (bytes : List ℕ) →
        script_output fault issuing base bytes ≡ concat (map printed (input_turns fault issuing base bytes)) }
    ensures line { (fault : Option ℕ) (issuing : Issuing) (base : Position) (bytes : List ℕ) → IsReached base → IsSpelled issuing →
        AllByRecursion PrintsItsLines (input_turns fault issuing base bytes) }
    ensures lines { (fault : Option ℕ) (issuing : Issuing) (base : Position) (bytes : List ℕ) → IsReached base → IsSpelled issuing →
        split_lines (script_output fault issuing base bytes) ≡ flat_map printed_lines (input_turns fault issuing base bytes) }
    ensures state { (fault : Option ℕ) (issuing : Issuing) (base : Position) (bytes : List ℕ) (done more : List Statement) (item : Statement) →
        statements.items bytes ≡ done ++ item ∷ more →
        let before = after (stream fault issuing base) done (new_stream issuing base) in
        input_turns fault issuing base bytes ≡ turns fault done (new_stream issuing base) ++ record { fault = fault; item = item; before = before } ∷ turns fault more (step fault item before) }
{
    a_request_prints_its_lines();
    no_line_feed_is_told();
    a_reply_is_one_line();
}

/// What is printed for an AUTH or a FASTAUTH whose ACEE is in use is the decision that the table gives for that ACEE at
/// the position of its turn, with the number of the commands before it, and its AUDIT line exactly where it is logged
/// there; what is printed for a VERIFY that can put an ACEE is what `verified` gives there.
pub fn requests_are_decided()
    ensures auth { (turn : Turn) (line acee : List ℕ) (access : Access) (user : Acee) → turn.item ≡ Request line →
        read line ≡ Ok (Auth acee access) → acee_named acee turn.before.acees ≡ Some user →
        printed turn ≡ decision_text turn.before.position.image false access user
        (decided turn.before.position.image.state (number_of turn.before) user access.class access.name access.asked) }
    ensures fastauth { (turn : Turn) (line acee : List ℕ) (access : Access) (user : Acee) → turn.item ≡ Request line →
        read line ≡ Ok (Fastauth acee access) → acee_named acee turn.before.acees ≡ Some user →
        printed turn ≡ decision_text turn.before.position.image true access user
        (fast_decided turn.before.position.image.state (number_of turn.before) user access.class access.name access.asked) }
    ensures verify { (turn : Turn) (line acee : List ℕ) (asked : VerifyRequest) → turn.item ≡ Request line →
        read line ≡ Ok (Verify acee asked) → put_refusal acee turn.before.acees ≡ None →
        printed turn ≡ (verify_told turn.before.position.image turn.before.acees acee
        (verified turn.before.position.image.state (number_of turn.before) asked)).text }
{}

/// A run over a whole input ends with the status of a failed disk exactly where a line of its output says DISKFAULT,
/// and else with that of refusals exactly where one says REFUSED or NEVER.
pub fn the_status_is_what_the_lines_say()
    ensures { (fault : Option ℕ) (issuing : Issuing) (base : Position) (bytes : List ℕ) → script_status fault issuing base bytes ≡
        whole_status (list_any says_failed (map printed (input_turns fault issuing base bytes))) (list_any says_refused (map printed (input_turns fault issuing base bytes))) }
{}

/// Unless a disk has failed, a command has its outcome at the position of its turn, where the issuer of its turn gives
/// it: that is printed, and, where no disk fails it, the position behind the turn is the one behind that outcome.
/// Behind a disk that failed every command is told so, and the position stays. A line of an issuer who fits is the
/// issuer of the next turns; one that doesn't fit, or any where he is fixed, changes no issuer.
pub fn commands_are_judged()
    ensures told { (turn : Turn) (text : List ℕ) → turn.item ≡ Command text → turn.before.halted ≡ false →
        printed turn ≡ (answer_outcome turn.fault (outcome_of text turn.before) turn.before).text }
    ensures moved { (turn : Turn) (text : List ℕ) → turn.item ≡ Command text → turn.before.halted ≡ false → (behind turn).halted ≡ false →
        (behind turn).position ≡ position_after turn.before.position (outcome_of text turn.before) }
    ensures halted { (turn : Turn) (text : List ℕ) → turn.item ≡ Command text → turn.before.halted ≡ true →
        (printed turn ≡ reply_line (number_of turn.before) Halted) × (behind turn ≡ turn.before) }
    ensures named { (turn : Turn) (line : List ℕ) → turn.item ≡ Issuer line →
        (behind turn).issuer ≡ unwrap_or (result_ok (issuer_named turn.before.issuing line)) turn.before.issuer }
{}

/// Where the issuer is fixed, he gives each command of the input, and each line of an issuer is refused, and changes
/// nothing else.
pub fn a_fixed_issuer_stays()
    ensures stays { (fault : Option ℕ) (id : List ℕ) (base : Position) (bytes : List ℕ) →
        AllByRecursion (λ (turn : Turn). turn.before.issuer ≡ first_issuer (Fixed id)) (input_turns fault (Fixed id) base bytes) }
    ensures refuses { (turn : Turn) (id line : List ℕ) → turn.item ≡ Issuer line → turn.before.issuing ≡ Fixed id →
        (printed turn ≡ reply_line (number_of turn.before) (Refused IssuerFixed)) × (behind turn ≡ record turn.before { has_refused = true }) }
{}
