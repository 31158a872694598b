//! Laws of the definitions. The functions do nothing: their contracts are what is proved.

ghost use Rattle.std.specs.Prelude.{ℕ, List};
ghost use Rattle.request_files.specs.OneLine.{IsNumbered};
ghost use Rattle.statements.specs.declared.issuer.Issuing.{Issuing};
ghost use Rattle.statements.specs.declared.reply.Reply.{Reply};
ghost use Rattle.statements.specs.IssuerLines.{issuer_named};
ghost use Rattle.statements.specs.OneLine.{IsFeedlessIssue, IsFeedlessReply};
ghost use Rattle.statements.specs.Replies.{reply_line};

/// A reply is one line, where no line feed stands in the words of the refusal that it tells. None stands in whom the
/// line of an issuer names, nor in the words of its refusal, whatever its bytes.
pub fn a_reply_is_one_line()
    ensures reply { (number : ℕ) (reply : Reply) → IsFeedlessReply reply → IsNumbered number (reply_line number reply) }
    ensures issuer { (issuing : Issuing) (line : List ℕ) → IsFeedlessIssue (issuer_named issuing line) }
{
    request_files::laws::a_named_issuer_has_no_line_feed();
}
