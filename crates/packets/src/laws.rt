//! What holds of packets.

ghost use Rattle.packets.specs.Laws.{ReadAsSpelled, OneDelivery, OneText, JudgedAsMeant, JudgedAsSpelled};
ghost use Rattle.packets.specs.Laws.{TakenIsWrittenBack};

/// Bytes are read as a packet exactly where they spell it and nothing more; they are one packet at most, and
/// a packet has one text.
pub fn packets_are_read_as_spelled()
    ensures exact { ReadAsSpelled }
    ensures one { OneDelivery }
    ensures text { OneText }
{}

/// What bytes are taken for under a roster is what that means: a packet is taken exactly where the bytes say
/// it, it may be, its nodes are members, and who is to sign it did; each refusal comes exactly where it is
/// the first of Garbage, UnknownNode and BadSignature that holds. What a packet's text is taken for depends
/// on what it delivers alone, and what is taken is written back as it was.
pub fn packets_are_taken_as_meant()
    ensures meant { JudgedAsMeant }
    ensures spelled { JudgedAsSpelled }
    ensures back { TakenIsWrittenBack }
{}
