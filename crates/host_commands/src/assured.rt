//! What a gateway says that witnesses assured it.

ghost use Rattle.std.specs.Prelude.{◌≡◌, ◌++◌, IfSome, codes};

/// What a gateway says that the witness at this address assured it, by the lines of its status: `assured to K` or
/// `assured of none`. None where it says nothing of that witness.
pub(crate) fn assured_in<'s>(status: &'s str, witness: &str) -> Option<&'s str> {
    for line in status.lines() {
        if let Some(words) = words_of(line, witness) {
            return Some(words);
        }
    }
    None
}

/// What a line of a gateway's status says of the witness at this address, if it is of that one.
fn words_of<'s>(line: &'s str, witness: &str) -> Option<&'s str>
    ensures { IfSome result (λ words. line.now ≡ codes "witness: " ++ (witness.now ++ (codes " " ++ words.now))) }
{
    let named = after(line, "witness: ")?;
    let rest = after(named, witness)?;
    after(rest, " ")
}

/// What follows a beginning of a text.
fn after<'s>(text: &'s str, beginning: &str) -> Option<&'s str>
    ensures { IfSome result (λ rest. text.now ≡ beginning.now ++ rest.now) }
{
    text.strip_prefix(beginning)
}
