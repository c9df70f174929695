//! What a node signed, and its log lacks.

ghost use Rattle.std.specs.Prelude.{◌≡◌, ◌↔◌, IfNone, IfSome, IsTrue, ℕ};
ghost use Rattle.nodes.specs.Lost.{IsLost, IsOwn, Stands};

use crate::node::Node;
use crate::role::Role;
use authenticator::{Authenticator, Number, is_same_hash, is_signed_by};

impl<R: Role> Node<R> {
    /// The number of an authenticator that this node signed, by its key in the roster, and whose hash isn't that of
    /// its log there: so the log is an earlier one, or another, than the one that was signed. None where the
    /// node didn't sign it, or it stands in the log. Takes no memory.
    pub fn lost(&self, authenticator: &Authenticator) -> Option<Number>
        ensures lost { IfSome result (λ number. IsLost self.now authenticator.now number) }
        ensures none { IfNone result ((number : ℕ) → ¬ IsLost self.now authenticator.now number) }
    {
        if self.has(authenticator) || !self.is_own(authenticator) {
            return None;
        }
        Some(authenticator.word.number(self.log_version()))
    }

    /// Whether the number and the hash of an authenticator are a pair of the log. Takes no memory.
    fn has(&self, authenticator: &Authenticator) -> bool
        ensures { IsTrue result ↔ Stands self.now authenticator.now }
    {
        let number = authenticator.word.number(self.log_version());
        match self.node().log().hash_at(number.get()) {
            Some(hash) => is_same_hash(&hash, &authenticator.hash),
            None => false,
        }
    }

    /// Whether an authenticator names this node, and its signature is that of the node's key in the roster.
    fn is_own(&self, authenticator: &Authenticator) -> bool
        ensures { IsTrue result ↔ IsOwn self.now authenticator.now }
    {
        if authenticator.node != self.number() {
            return false;
        }
        match self.node().roster().member(authenticator.node) {
            Some(member) => is_signed_by(&member, authenticator),
            None => false,
        }
    }
}
