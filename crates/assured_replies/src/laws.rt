//! What holds of a server's replies once a witness has audited its log.

ghost use Rattle.assured_replies.specs.Gateways.{AssuredRepliesAreOwed};
ghost use Rattle.assured_replies.specs.Laws.{AuditedRepliesAreOwed, AuditedRepliesAnswerTheirCalls};

use witness_laws::evidence::laws::audited_logs_are_honest;
use xdr::texts::laws::reads_each_text;

/// A reply of a server that a witness answers for, and whose signature it was shown, is the one that the server
/// owed to a call of the node that it goes to: what RFC 1094's restated tree, as the entries before leave it,
/// answers at the clock reading that the server logged; where no two texts have one digest.
pub fn audited_replies_are_owed()
    ensures { AuditedRepliesAreOwed }
{
    audited_logs_are_honest();
}

/// Where its number is two after that of an acknowledgement of a call, whose signature the witness was shown, too,
/// it is the one that the server owed to this very call.
pub fn audited_replies_answer_their_calls()
    ensures { AuditedRepliesAnswerTheirCalls }
{
    audited_logs_are_honest();
}

/// What a client hands out for a call to a server on another host (`remote::RemoteClient::accept`) is the reply that
/// the server owed to that very call, where a witness answers for it: one that doesn't call the server exposed, has
/// filed its log Sound up to the reply's number, from number 1 or from a base below it, and was shown the signatures of
/// the reply and of the acknowledgement of the call; and where no two texts have one digest.
pub fn assured_replies_are_owed()
    ensures { AssuredRepliesAreOwed }
{
    audited_replies_answer_their_calls();
    reads_each_text();
}
