//! What holds of the texts of envelopes and acknowledgements.

ghost use Rattle.std.specs.Prelude.{◌≡◌, ◌↔◌, List, ℕ};
ghost use Rattle.xdr.specs.Item.{IsBytes};
ghost use Rattle.xdr.specs.Texts.Text.{IsText};
ghost use Rattle.envelopes.specs.Envelope.{envelope_text, envelope_value};
ghost use Rattle.envelopes.specs.Acknowledgement.{ack_text, ack_value};
ghost use Rattle.envelopes.specs.Checking.{IsAckText, IsTextOf};
ghost use Rattle.envelopes.specs.declared.envelope.Envelope.{Envelope};
ghost use Rattle.envelopes.specs.declared.acknowledgement.Ack.{Ack};

use xdr::texts::laws::reads_each_text;

/// Bytes are read as an envelope exactly where they are its spelling and nothing more, and are the text of
/// one envelope at most.
pub fn an_envelope_has_one_text()
    ensures exact { (e : Envelope) (bytes : List ℕ) → IsBytes bytes →
        (IsTextOf bytes e ↔ IsText envelope_text (envelope_value e) bytes) }
    ensures one { (e f : Envelope) (bytes : List ℕ) → IsTextOf bytes e → IsTextOf bytes f → e ≡ f }
{
    reads_each_text();
}

/// Bytes are read as an acknowledgement exactly where they are its spelling and nothing more, and are the
/// text of one acknowledgement at most.
pub fn an_acknowledgement_has_one_text()
    ensures exact { (a : Ack) (bytes : List ℕ) → IsBytes bytes →
        (IsAckText bytes a ↔ IsText ack_text (ack_value a) bytes) }
    ensures one { (a b : Ack) (bytes : List ℕ) → IsAckText bytes a → IsAckText bytes b → a ≡ b }
{
    reads_each_text();
}
